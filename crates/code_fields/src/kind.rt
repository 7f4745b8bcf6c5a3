// The option's type, C or P, and its category, A or E.
ghost use Rattle.std.specs.Prelude.{◌≡◌, ◌+◌, ◌≤◌, ◌<◌, length, get_or, eqb, Some, None};
ghost use Rattle.choice.specs.Choice.{choose};
ghost use Rattle.decimal.specs.Put.{Put};
ghost use Rattle.contract.specs.Kind.{type_byte, category_byte, type_at, category_at, kind_at, kind_text};

use terms::{Category, OptionType};

// One of two letters, with what it stands for.
fn either<T: Copy>(s: &[u8], at: usize, first: (u8, T), second: (u8, T)) -> Option<(T, usize)>
    ensures within { at < length s.now → result ≡ choose (eqb (get_or s.now at 0) first.0) (Some (first.1, at + 1)) (choose (eqb (get_or s.now at 0) second.0) (Some (second.1, at + 1)) None) }
    ensures past { length s.now ≤ at → result ≡ None }
{
    if s.len() <= at {
        return None;
    }
    if s[at] == first.0 {
        return Some((first.1, at + 1));
    }
    if s[at] == second.0 {
        return Some((second.1, at + 1));
    }
    None
}

fn option_type(s: &[u8], at: usize) -> Option<(OptionType, usize)>
    ensures { result ≡ type_at s.now at }
{
    either(s, at, (b'C', OptionType::Call), (b'P', OptionType::Put))
}

fn category(s: &[u8], at: usize) -> Option<(Category, usize)>
    ensures { result ≡ category_at s.now at }
{
    either(
        s,
        at,
        (b'A', Category::American),
        (b'E', Category::European),
    )
}

// The two letters.
pub fn letters(s: &[u8], at: usize) -> Option<(OptionType, Category, usize)>
    ensures { result ≡ kind_at s.now at }
{
    let Some((option, b)) = option_type(s, at) else {
        return None;
    };
    let Some((category, next)) = category(s, b) else {
        return None;
    };
    Some((option, category, next))
}

// A `match` for each type: two arms each, and no step that one function could do for both.
fn type_letter(option: OptionType) -> u8
    ensures { result ≡ type_byte option }
{
    match option {
        OptionType::Call => b'C',
        OptionType::Put => b'P',
    }
}

fn category_letter(category: Category) -> u8
    ensures { result ≡ category_byte category }
{
    match category {
        Category::American => b'A',
        Category::European => b'E',
    }
}

pub fn put_letters(out: &mut [u8], at: usize, option: OptionType, category: Category) -> usize
    requires { at + 2 ≤ length out.old }
    ensures { Put out.old at (kind_text option category) out.new result }
{
    let next = put::byte(out, at, type_letter(option));
    put::byte(out, next, category_letter(category))
}
