// The style: the blank before the strike, if any.
#![tactic(auto)]

ghost use Rattle.std.specs.Prelude.{◌≡◌, ◌+◌, ◌≤◌, length};
ghost use Rattle.decimal.specs.Put.{Put};
ghost use Rattle.contract.specs.Style.{style_text, style_at};

use contract::types::Style;

// The style, and the place where the strike begins. A second blank is no style.
pub fn blank(s: &[u8], at: usize) -> Option<(Style, usize)>
    ensures { result ≡ style_at s.now at }
{
    let Some(next) = scan::expect(s, at, b' ') else {
        return Some((Style::NoBlank, at));
    };
    match scan::expect(s, next, b' ') {
        Some(_) => None,
        None => Some((Style::Blank, next)),
    }
}

pub fn put_blank(out: &mut [u8], at: usize, style: Style) -> usize
    requires { at + length (style_text style) ≤ length out.old }
    ensures { Put out.old at (style_text style) out.new result }
{
    match style {
        Style::Blank => put::byte(out, at, b' '),
        Style::NoBlank => at,
    }
}
