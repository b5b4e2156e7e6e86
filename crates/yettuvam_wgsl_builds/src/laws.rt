//! The laws of makes over the front end WGSL. They have no premise on the front end.
ghost use Rattle.naga_oil.specs.RunLaw.{EachMakeLaw};
ghost use Rattle.yettuvam_wgsl.specs.Front.{wgsl};
ghost use Rattle.yettuvam_wgsl.specs.declared.backend.Wgsl.{Wgsl as Front};

use naga_oil::laws::makes_return_one_value;
use yettuvam_wgsl::Wgsl;

/// After any list of adds, removals and builds, a composer over WGSL returns one value of its settings, the registered
/// modules, the binding counter and the inputs: the shader, or the first error. What is kept from earlier builds never
/// shows.
///
/// A build here is a call of `make_naga_module`, for which memory didn't run out.
pub fn wgsl_makes_return_one_value()
    ensures { EachMakeLaw (λ (front : Front). wgsl) }
{
    makes_return_one_value::<Wgsl>();
}
