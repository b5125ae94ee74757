//! What holds of the literal texts of programs and of their cores.
ghost use Rattle.ec_core_laws.specs.CoreTextsLaws.{EachTextIsBytes, EachTextOfATextIsBytes};

/// Each literal text in the core is a list of bytes, where each in the tree is.
pub fn each_text_is_bytes()
    ensures { EachTextIsBytes }
{}

/// Each literal text in a program of a text is a list of bytes.
pub fn each_text_of_a_text_is_bytes()
    ensures { EachTextOfATextIsBytes }
{}
