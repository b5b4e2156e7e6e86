//! What the code of a texture says of its calls.

ghost use Rattle.std.specs.Prelude.{◌≡◌};
ghost use Rattle.yettuvam_wgsl_predeclared.specs.Textures as spec;

/// The codes of textures without the codes of their scalar type, format and access.
const KINDS: u64 = 256;

const ARRAY_2D: u64 = 3;

const ARRAY_CUBE: u64 = 6;

const MULTISAMPLED_2D: u64 = 7;

const DEPTH_2D: u64 = 8;

const DEPTH_ARRAY_2D: u64 = 9;

const DEPTH_ARRAY_CUBE: u64 = 11;

const DEPTH_MULTISAMPLED_2D: u64 = 12;

const STORAGE_ARRAY_2D: u64 = 16;

/// Whether a texture is an array of layers, so that calls take an index.
#[tactic(auto, unfolding(crate::specs::Textures::is_arrayed))]
pub fn is_arrayed(image: u64) -> bool
    ensures { result ≡ spec.is_arrayed image }
{
    matches!(
        image % KINDS,
        ARRAY_2D | ARRAY_CUBE | DEPTH_ARRAY_2D | DEPTH_ARRAY_CUBE | STORAGE_ARRAY_2D
    )
}

/// Whether a texture is multisampled, so that loads take a sample's number.
#[tactic(auto, unfolding(crate::specs::Textures::is_multisampled))]
pub fn is_multisampled(image: u64) -> bool
    ensures { result ≡ spec.is_multisampled image }
{
    matches!(image % KINDS, MULTISAMPLED_2D | DEPTH_MULTISAMPLED_2D)
}

/// Whether a texture has depths, so that a gather takes no component.
#[tactic(auto, unfolding(crate::specs::Textures::is_depth))]
pub fn is_depth(image: u64) -> bool
    ensures { result ≡ spec.is_depth image }
{
    let kind = image % KINDS;
    kind >= DEPTH_2D && kind <= DEPTH_MULTISAMPLED_2D
}
