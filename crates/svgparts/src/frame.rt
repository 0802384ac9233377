//! The frame of a page.
use crate::parts::Parts;
use std::alloc::AllocError;

// A page that is wider does not shrink with the window: its words would be too small.
const SHRINKS: f64 = 1400.0;

/// The rules that all pages share, between those of the colours and those of a page of its own: fonts, and classes of words. Each
/// colour by its name follows that of a light page, for programs that show pictures and know no names.
pub const STYLE: &str =
    "text{font-family:system-ui, -apple-system, 'Segoe UI', Roboto, 'Helvetica Neue', Arial, sans-serif;font-size:13px;fill:#16191d;fill:var(--ink);font-variant-numeric:tabular-nums}.mono{font-family:ui-monospace, SFMono-Regular, Menlo, Consolas, 'DejaVu Sans Mono', monospace;font-size:12px}.soft{fill:#4d545c;fill:var(--soft)}.small{font-size:11.5px}.bold{font-weight:650}.h{font-size:20px;font-weight:650}.m{text-anchor:middle}.e{text-anchor:end}.t{font-size:10.5px}";

/// Opens a page of this size, as far as its title and the beginning of its description.
pub fn open_page(title: &str, size: (f64, f64), page: &mut Parts) -> Result<(), AllocError> {
    let (wide, high) = size;
    page.raw("<svg xmlns=\"http://www.w3.org/2000/svg\" viewBox=\"0 0 ")?;
    page.number(wide)?;
    page.raw(" ")?;
    page.number(high)?;
    page.raw("\" width=\"")?;
    page.number(wide)?;
    page.raw("\" height=\"")?;
    page.number(high)?;
    page.raw("\" role=\"img\" aria-labelledby=\"t d\"")?;
    if wide <= SHRINKS {
        page.raw(" style=\"max-width:100%;height:auto\"")?;
    }
    page.raw(">\n<title id=\"t\">")?;
    page.escaped(title)?;
    page.raw("</title>\n<desc id=\"d\">")
}
