// The languages of shader texts.
/// The language of the text of a shader.
#[derive(Clone, Copy, PartialEq, Eq, Debug, Default, Hash)]
pub enum ShaderLanguage {
    #[default]
    Wgsl,
    Glsl,
}
