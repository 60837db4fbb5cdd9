//! Texts as HTML has them.
#![tactic(auto)]

use std::alloc::AllocError;

/// Writes a text, with what HTML would read as its own written otherwise.
pub(crate) fn write_text(out: &mut String, text: &str) -> Result<(), AllocError> {
    for c in text.chars() {
        match c {
            '<' => out.push_str("&lt;")?,
            '>' => out.push_str("&gt;")?,
            '&' => out.push_str("&amp;")?,
            '"' => out.push_str("&quot;")?,
            _ => out.push(c)?,
        }
    }
    Ok(())
}

/// Writes the beginning of a drawing of a size.
pub(crate) fn begin_drawing(
    out: &mut String,
    width: usize,
    height: usize,
) -> Result<(), AllocError> {
    write!(
        out,
        "<svg viewBox=\"0 0 {width} {height}\" width=\"{width}\" height=\"{height}\">\n"
    )
}
