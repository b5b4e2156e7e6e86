// The examples print their expected texts.
use super::projects::answers;
use std::test::Fail;

const TOP: &str = "// A ball under a light.
#import lighting::{shade, ambient as base}
#import shapes::sphere

const exposure = 2

entry main = exposure + base() + shade(sphere::area(3), 5)
";

const PALETTE: &str = "#define_import_path palette

fn warm() = 7
fn cold() = 3
";

const UNITS: &str = "#define_import_path units

const four = 4
";

const SPHERE: &str = "#define_import_path shapes::sphere
#import units::four

fn area(radius) = radius + radius + four
";

const LIGHTING: &str = "#define_import_path lighting
#import palette::{warm, cold as shadow}

#ifdef FINE
const samples = 16
#else
const samples = 1
#endif

// Other modules may override this.
virtual fn attenuate(light) = light + 1

fn ambient() = shadow() + #SKY

fn shade(surface, distance) = attenuate(surface + samples) + warm() + distance
";

const FOG: &str = "#define_import_path fog
#import lighting

const density = 40

override fn lighting::attenuate(light) = lighting::attenuate(light) + density
";

const NIGHT: &str = "#define_import_path night
#import lighting

override fn lighting::attenuate(light) = lighting::attenuate(light) + 100
";

const MADE: &str = "const fourX_naga_oil_mod_XOVXGS5DTX = 4
const densityX_naga_oil_mod_XMZXWOX = 40
const samplesX_naga_oil_mod_XNRUWO2DUNFXGOX = 1
const exposure = 2
fn warmX_naga_oil_mod_XOBQWYZLUORSQX() = 7
fn coldX_naga_oil_mod_XOBQWYZLUORSQX() = 3
fn attenuateX_naga_oil_mod_XNRUWO2DUNFXGOX(light) = light + 1
fn areaX_naga_oil_mod_XONUGC4DFOM5DU43QNBSXEZIX(radius) = radius + radius + fourX_naga_oil_mod_XOVXGS5DTX
fn ambientX_naga_oil_mod_XNRUWO2DUNFXGOX() = coldX_naga_oil_mod_XOBQWYZLUORSQX() + 5
fn attenuateX_naga_oil_vrt_XNRUWO2DUNFXGOXX_naga_oil_mod_XMZXWOX(light) = attenuateX_naga_oil_mod_XNRUWO2DUNFXGOX(light) + densityX_naga_oil_mod_XMZXWOX
fn attenuateX_naga_oil_vrt_XNRUWO2DUNFXGOXX_naga_oil_mod_XNZUWO2DUX(light) = attenuateX_naga_oil_vrt_XNRUWO2DUNFXGOXX_naga_oil_mod_XMZXWOX(light) + 100
fn shadeX_naga_oil_mod_XNRUWO2DUNFXGOX(surface, distance) = attenuateX_naga_oil_vrt_XNRUWO2DUNFXGOXX_naga_oil_mod_XNZUWO2DUX(surface + samplesX_naga_oil_mod_XNRUWO2DUNFXGOX) + warmX_naga_oil_mod_XOBQWYZLUORSQX() + distance
entry main = exposure + ambientX_naga_oil_mod_XNRUWO2DUNFXGOX() + shadeX_naga_oil_mod_XNRUWO2DUNFXGOX(areaX_naga_oil_mod_XONUGC4DFOM5DU43QNBSXEZIX(3), 5)
";

#[test]
fn makes_the_lights(rt: HostRuntime) -> Result<(), Fail> {
    let files = [
        ("top.txt", TOP),
        ("palette.txt", PALETTE),
        ("units.txt", UNITS),
        ("sphere.txt", SPHERE),
        ("lighting.txt", LIGHTING),
        ("fog.txt", FOG),
        ("night.txt", NIGHT),
    ];
    let line =
        "make top.txt palette.txt units.txt sphere.txt lighting.txt fog.txt night.txt +fog +night SKY=5";
    answers(&rt, line, &files, (0, MADE, ""))?;
    Ok(())
}

const WATER: &str = "#define_import_path water
#import noise::{ripple, swell as wave}
#define LAYERS 3

// The height of the water above a point.
fn height(at: vec2<f32>) -> f32 {
#ifdef CALM
    return ripple(at);
#else if LAYERS >= 3
    return ripple(at) + #LAYERS.0 * wave(at * #{SCALE}.0);
#else
    return wave(at);
#endif
}
";

const PREPROCESSED: &str = "                         
                                      
                

// The height of the water above a point.
fn height(at: vec2<f32>) -> f32 {
           
                      
                    
    return rippleX_naga_oil_mod_XNZXWS43FX(at) + 3.0 * swellX_naga_oil_mod_XNZXWS43FX(at * 4.0);
     
                    
      
}
";

#[test]
fn preprocesses_the_water(rt: HostRuntime) -> Result<(), Fail> {
    let files = [("water.wgsl", WATER)];
    answers(&rt, "pre water.wgsl SCALE=4", &files, (0, PREPROCESSED, ""))?;
    Ok(())
}
