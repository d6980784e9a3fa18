// Numbers as decimal text.
#![tactic(auto)]

ghost use Rattle.text.specs.Internal.{Room, Put};

use itoa::{Buffer, Integer};
use text::Text;

// Puts a number behind a text. Crate phrases calls it.
pub fn put_number<I: Integer>(text: &mut Text, number: I)
    requires { Room text.old (I.text number) }
    ensures { Put text.old (I.text number) text.new }
{
    let mut digits = Buffer::new();
    text.put_bytes(digits.format(number).as_bytes());
}
