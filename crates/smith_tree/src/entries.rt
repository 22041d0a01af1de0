//! What sections of components hold beside types and imports, whether a component is made or read: custom sections,
//! canonical functions and exports.

/// A name and any bytes.
#[derive(Debug, Drop)]
pub struct CustomSection {
    pub name: String,
    pub bytes: Vec<u8>,
}

/// A canonical function (Explainer.md, canonical definitions), without options.
#[derive(Debug, Drop)]
pub enum Func {
    /// The core function with that index, lifted to the function type with that index.
    CanonLift { func_ty: u32, core_func_index: u32 },
    /// The component function with that index, lowered to a core function of the flattened type.
    CanonLower { func_index: u32 },
}

/// A component function under a name (Explainer.md, export definitions), without a type of its own.
#[derive(Debug, Drop)]
pub struct Export {
    pub name: String,
    pub func_index: u32,
}
