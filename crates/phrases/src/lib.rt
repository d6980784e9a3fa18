// Words and numbers together.
#![tactic(auto)]

ghost use Rattle.std.specs.Prelude.{map};
ghost use Rattle.text.specs.Internal.{Room, Put, filled_in};

use itoa::Integer;
use text::Text;

// Stands for a number in a form.
const GAP: u8 = b'?';

// Puts a form behind a text, with numbers in the places of its question marks. Crate report_lines calls it.
pub fn put_filled<I: Integer>(text: &mut Text, form: &[u8], numbers: &[I])
    requires { Room text.old (filled_in form.now (map I.text numbers.now)) }
    ensures { Put text.old (filled_in form.now (map I.text numbers.now)) text.new }
{
    let mut left = numbers;
    for byte in form {
        match left.split_first() {
            Some((number, rest)) if *byte == GAP => {
                numerals::put_number(text, *number);
                left = rest;
            }
            _ => text.put_byte(*byte),
        }
    }
}
