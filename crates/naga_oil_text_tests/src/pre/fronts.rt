// Each front of a text is preprocessed, and has metadata, or a named error: texts of other tests, and of naga_oil's own.
use naga_oil_pre::{ComposerErrorInner, Preprocessor};
use std::alloc::Global;
use std::collections::BTreeMap;
use std::test::Fail;

#[rattlefmt::skip]
static ROWS: [&str; 9] = [
    "\n#define NOW_DEFINED\n#ifdef NOW_DEFINED\ndefined\n#endif\n",
    "#import a::f\nx.f + x. f",
    "#ifdef A\na\n#else if X\nb\n#endif",
    "#ifdef A\nx",
    "#define_import_path a\nvirtual fn f(x) = x + 1",
    "#define_import_path b\n#import a\noverride fn a::f(x) = a::f(x) + 10",
    "#define_import_path c\n#import a\noverride fn a::f(x) = a::f(x) + 100",
    "#import a\nentry main = a::f(5)",
    "#import a::f\n// #C f\n#ifdef D\nf();\n#endif",
];

#[rattlefmt::skip]
static COMMENTS: [&str; 17] = [
    "\nnot commented\n// line commented\nnot commented\n/* block commented on a line */\nnot commented\n// line comment with a /* block comment unterminated\nnot commented\n/* block comment\n   spanning lines */\nnot commented\n/* block comment\n   spanning lines and with // line comments\n   even with a // line commented terminator */\nnot commented\n",
    "1.0 /* block comment with a partial line comment on the end *// 2.0",
    "1.0 /* block comment with a partial block comment on the end */* 2.0",
    "1.0 /* block comment 1 *//* block comment 2 */ * 2.0",
    "1.0 /* block comment with real line comment after */// line comment",
    "*/",
    "#import \"embedded://file.wgsl\"",
    "// #import \"embedded://file.wgsl\"",
    "/* #import \"embedded://file.wgsl\" */",
    "/* #import \"embedded:*/file.wgsl\" */",
    "#import \"embedded://file.wgsl\" // comment",
    "#import \"embedded:/* */ /* /**/* / / /// * / //*/*/ / */*file.wgsl\"",
    "/*\nhoho\n*/",
    "///*\nhehe\n//*/",
    "/* // */ code goes here /*\nStill a comment // */\n/* dummy */",
    "/*\n//*\n*/commented\n*/not commented",
    "let a/**/b =3u;",
];

#[rattlefmt::skip]
static CONDITIONS: [&str; 4] = [
    "\n#define DEFUINT 1\n#define DEFINT -1\n#define DEFBOOL false\n#if DEFUINT == 1\nuint: #DEFUINT\n#endif\n#if DEFINT == -1\nint: #DEFINT\n#endif\n#if DEFBOOL == false\nbool: #DEFBOOL\n#endif\n",
    "\n#ifdef NOT_DEFINED\n// not defined\n#else ifdef IS_DEFINED\n// defined 1\n#ifdef NOT_DEFINED\n// not defined\n#else\n// should be here\n#ifdef NOT_DEFINED\n// not defined\n#else ifdef ALSO_NOT_DEFINED\n// not defined\n#else ifdef IS_DEFINED\n// defined 2\n#endif\n#endif\n#endif\n",
    "\n#ifdef NOT_DEFINED\nfail 1\n#else ifdef ALSO_NOT_DEFINED\nfail 2\n#else ifndef ALSO_ALSO_NOT_DEFINED\nok\n#else\nfail 3\n#endif\n",
    "\n#ifdef NOT_DEFINED\nfail 1\n#else if x == 1\nfail 2\n#else if x == 2\nok\n#else\nfail 3\n#endif\n",
];

#[rattlefmt::skip]
static IMPORTS: [&str; 16] = [
    "\n        #import a::b\n    ",
    "\n        #import a::{b, c}\n    ",
    "\n        #import a::{b as d, c}\n    ",
    "\n        #import a::{b::{c, d}, e}\n    ",
    "\n        #import a::b::{c, d}, e\n    ",
    "\n        #import a, b\n    ",
    "\n        #import a::b c, d\n    ",
    "\n        #import a::b c\n    ",
    "\n        #import a::b::{c::{d, e}, f, g::{h as i, j}}\n    ",
    "\n        #import a::b::{\n            c::{d, e}, \n            f, \n            g::{\n                h as i, \n                j::k::l as m,\n            }\n        }\n    ",
    "\n        #import \"path//with\\ all sorts of .stuff\"::{a, b}\n    ",
    "\n        #import a::b::{\n    ",
    "\n        #import a::b::{{c}\n    ",
    "\n        #import a::b::{c}}\n    ",
    "\n        #import a::b{{c,d}}\n    ",
    "\n        #import a:b\n    ",
];

// The text around each of the texts `TEXTURES`.
#[rattlefmt::skip]
static VIEW: &str = "\nstruct View {\n    view_proj: mat4x4<f32>,\n    world_position: vec3<f32>,\n};\n@group(0) @binding(0)\nvar<uniform> view: View;\n";

#[rattlefmt::skip]
static VERTEX: &str = "\nstruct VertexOutput {\n    @location(0) uv: vec2<f32>,\n    @builtin(position) position: vec4<f32>,\n};\n@vertex\nfn vertex(\n    @location(0) vertex_position: vec3<f32>,\n    @location(1) vertex_uv: vec2<f32>\n) -> VertexOutput {\n    var out: VertexOutput;\n    out.uv = vertex_uv;\n    out.position = view.view_proj * vec4<f32>(vertex_position, 1.0);\n    return out;\n}\n";

#[rattlefmt::skip]
static TEXTURES: [&str; 7] = [
    "#if TEXTURE !! true\n@group(1) @binding(0)\nvar sprite_texture: texture_2d<f32>;\n#endif",
    "#if TEXTURE == 3\n@group(1) @binding(0)\nvar sprite_texture: texture_2d<f32>;\n#endif",
    "#if TEXTURE == true\n@group(1) @binding(0)\nvar sprite_texture: texture_2d<f32>;\n#endif",
    "#if TEXTURE != false\n@group(1) @binding(0)\nvar sprite_texture: texture_2d<f32>;\n#endif",
    "\n#ifdef TEXTURE\n// Main texture\n@group(1) @binding(0)\nvar sprite_texture: texture_2d<f32>;\n#else ifdef SECOND_TEXTURE\n// Second texture\n@group(1) @binding(0)\nvar sprite_texture: texture_2d<f32>;\n#else ifdef THIRD_TEXTURE\n// Third texture\n@group(1) @binding(0)\nvar sprite_texture: texture_2d<f32>;\n#else\n@group(1) @binding(0)\nvar sprite_texture: texture_2d_array<f32>;\n#endif\n",
    "\n#ifdef TEXTURE\n// Main texture\n@group(1) @binding(0)\nvar sprite_texture: texture_2d<f32>;\n#else ifdef OTHER_TEXTURE\n// Other texture\n@group(1) @binding(0)\nvar sprite_texture: texture_2d<f32>;\n#endif\n",
    "    var a: i32 = #FIRST_VALUE;\n    var b: i32 = #FIRST_VALUE * #SECOND_VALUE;\n    var c: i32 = #MISSING_VALUE;\n    var d: bool = #BOOL_VALUE;",
];

fn is_named<T: Drop>(answer: Result<T, ComposerErrorInner>) -> bool {
    match answer {
        Ok(_) => true,
        Err(fault) => !fault.is_memory(),
    }
}

// Whether a text has a value or a named error, preprocessed without definitions, and its metadata with defines and without.
fn is_answered(alloc: Global, text: &str) -> bool {
    let processor = Preprocessor::default();
    let preprocessed = is_named(processor.preprocess(alloc, text, &BTreeMap::new(alloc)));
    let of_shader = is_named(processor.get_preprocessor_metadata(alloc, text, true));
    let of_module = is_named(processor.get_preprocessor_metadata(alloc, text, false));
    preprocessed && of_shader && of_module
}

fn answers_front_with(alloc: Global, front: &mut String, c: char) -> bool {
    front.push(c).is_ok() && is_answered(alloc, front.as_str())
}

fn answers_fronts(alloc: Global, text: &str) -> bool {
    let mut front = String::new(alloc);
    let mut holds = is_answered(alloc, "");
    for c in text.chars() {
        holds = answers_front_with(alloc, &mut front, c) && holds;
    }
    holds
}

fn answers(alloc: Global, texts: &[&'static str]) -> Result<(), Fail> {
    for text in texts {
        if !answers_fronts(alloc, text) {
            return Err(Fail::from(*text));
        }
    }
    Ok(())
}

#[test]
fn answers_each_front(rt: HostRuntime) -> Result<(), Fail> {
    answers(rt.alloc(), &ROWS)?;
    answers(rt.alloc(), &COMMENTS)?;
    answers(rt.alloc(), &CONDITIONS)?;
    answers(rt.alloc(), &IMPORTS)
}

// Whether each front of a shader that contains one of the texts `TEXTURES` has a value or a named error.
fn answers_shader(alloc: Global, text: &str) -> bool {
    match format!(in alloc; "{VIEW}{text}{VERTEX}") {
        Ok(shader) => answers_fronts(alloc, shader.as_str()),
        Err(_) => false,
    }
}

#[test]
fn answers_each_front_of_a_shader(rt: HostRuntime) -> Result<(), Fail> {
    for text in &TEXTURES {
        if !answers_shader(rt.alloc(), text) {
            return Err(Fail::from(*text));
        }
    }
    Ok(())
}
