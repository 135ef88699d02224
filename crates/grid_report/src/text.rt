// Text that grows, and what is shown of values.
ghost use Rattle.std.specs.Prelude.{◌≡◌, [], ◌∷◌, ◌++◌, List as Seq, ℕ, decimal, ◌≤◌, length};
ghost use Rattle.std.specs.List.{flat_map};
ghost use Rattle.grid_report.specs.Words.{signed, behind};
ghost use Rattle.grid_report.specs.Puts.{Puts};

use grid_ids::{Id, Memory};
use itoa::{Buffer, write_digits};
use std::alloc::Global;
use std::marker::Model;

/// Text that grows at its end, seen as its bytes. A call that takes memory leaves no text where memory runs out.
#[derive(Drop)]
pub struct Text {
    bytes: Vec<u8>,
}

impl Model for Text {
    ghost Value = { Seq ℕ };

    ghost view = { λ t. t.bytes.items };
}

impl Text {
    /// No text. It takes no memory.
    pub fn empty(alloc: Global) -> Text
        ensures { result ≡ [] }
    {
        Text {
            bytes: Vec::new(alloc),
        }
    }

    /// No text again.
    pub fn clear(&mut self)
        ensures { self.new ≡ [] }
    {
        self.bytes.clear();
    }

    /// The bytes of the text, without memory.
    pub fn as_bytes(&self) -> &[u8]
        ensures { result.now ≡ self.now }
    {
        self.bytes.as_slice()
    }

    /// Puts a text last.
    pub fn put(&mut self, text: &str) -> Result<(), Memory>
        ensures { Puts self.old text.now self.new result }
    {
        self.put_bytes(text.as_bytes())
    }

    /// Puts bytes last.
    pub fn put_bytes(&mut self, bytes: &[u8]) -> Result<(), Memory>
        ensures { Puts self.old bytes.now self.new result }
    {
        match self.bytes.extend_from_slice(bytes) {
            Ok(()) => Ok(()),
            Err(_) => {
                self.bytes.clear();
                Err(Memory)
            }
        }
    }

    /// Puts a byte last.
    #[inline(always)]
    pub fn put_byte(&mut self, byte: u8) -> Result<(), Memory>
        ensures { Puts self.old (byte ∷ []) self.new result }
    {
        match self.bytes.push(byte) {
            Ok(()) => Ok(()),
            Err(_) => {
                self.bytes.clear();
                Err(Memory)
            }
        }
    }

    /// Puts a text last, between two others.
    #[inline(always)]
    pub fn put_between(&mut self, before: &str, text: &str, behind: &str) -> Result<(), Memory>
        ensures { Puts self.old (before.now ++ text.now ++ behind.now) self.new result }
    {
        self.put(before)?;
        self.put(text)?;
        self.put(behind)
    }

    /// Puts a number last, in decimal digits without a leading zero.
    #[inline(always)]
    pub fn put_unsigned(&mut self, number: u64) -> Result<(), Memory>
        ensures { Puts self.old (decimal number) self.new result }
    {
        if number < 10 {
            self.put_byte(b'0' + number as u8)
        } else {
            self.put_digits(number)
        }
    }

    // The same through a buffer, whatever the count of digits.
    #[inline(never)]
    fn put_digits(&mut self, number: u64) -> Result<(), Memory>
        ensures { Puts self.old (decimal number) self.new result }
    {
        let mut bytes = [0; 20];
        let start = write_digits(number, &mut bytes, 20);
        self.put_bytes(&bytes[start..])
    }

    /// Puts a total last, in decimal digits without a leading zero.
    pub fn put_total(&mut self, total: u128) -> Result<(), Memory>
        ensures { Puts self.old (decimal total) self.new result }
    {
        self.put(Buffer::new().format(total))
    }

    /// Puts a whole number last, with a minus sign in front of its digits where it is below 0.
    #[tactic(auto, unfolding(crate::specs::Words::signed))]
    pub fn put_whole(&mut self, number: &i64) -> Result<(), Memory>
        ensures { Puts self.old (signed number.now) self.new result }
    {
        let number = *number;
        self.put(Buffer::new().format(number))
    }

    /// Puts a number last, with a minus sign in front of its digits where it is below 0.
    #[tactic(auto, unfolding(crate::specs::Words::signed))]
    pub fn put_signed(&mut self, number: &i128) -> Result<(), Memory>
        ensures { Puts self.old (signed number.now) self.new result }
    {
        let number = *number;
        self.put(Buffer::new().format(number))
    }
}

/// What a report writes of a value.
pub trait Shown {
    // The bytes that are written.
    ghost shown: { Self → Seq ℕ };

    /// Puts what is written of the value last. Where memory runs out, no text is left.
    fn show(&self, out: &mut Text) -> Result<(), Memory>
        ensures { Puts out.old (shown self.now) out.new result };
}

impl Shown for u8 {
    ghost shown = { decimal };

    fn show(&self, out: &mut Text) -> Result<(), Memory> {
        out.put_unsigned(u64::from(*self))
    }
}

impl Shown for u16 {
    ghost shown = { decimal };

    fn show(&self, out: &mut Text) -> Result<(), Memory> {
        out.put_unsigned(u64::from(*self))
    }
}

impl Shown for Text {
    ghost shown = { λ t. t };

    fn show(&self, out: &mut Text) -> Result<(), Memory> {
        out.put_bytes(self.as_bytes())
    }
}

impl Shown for Id {
    ghost shown = { λ i. i };

    fn show(&self, out: &mut Text) -> Result<(), Memory> {
        out.put(self.text())
    }
}

/// Puts each item behind a space. Where memory runs out, the text is empty.
pub fn put_spaced<T: Shown>(out: &mut Text, items: &[T]) -> Result<(), Memory>
    ensures { Puts out.old (flat_map (λ x. 32 ∷ T.shown x) items.now) out.new result }
{
    for item in items {
        out.put(" ")?;
        item.show(out)?;
    }
    Ok(())
}

/// Puts each number behind a separator. Where memory runs out, the text is empty.
pub fn put_numbers(out: &mut Text, separator: u8, numbers: &[u16]) -> Result<(), Memory>
    ensures { Puts out.old (flat_map (λ n. separator ∷ decimal n) numbers.now) out.new result }
{
    for few in numbers.chunks(16) {
        put_few(out, separator, few)?;
    }
    Ok(())
}

/// Puts each of at most 16 numbers behind a separator. They are written from the last to the first, at most six bytes
/// each, and put at once.
fn put_few(out: &mut Text, separator: u8, few: &[u16]) -> Result<(), Memory>
    requires { length few.now ≤ 16 }
    ensures { Puts out.old (flat_map (λ n. separator ∷ decimal n) few.now) out.new result }
{
    let mut bytes = [separator; 96];
    let mut start = bytes.len();
    for at in (0..few.len()).rev() {
        start = write_digits(u64::from(few[at]), &mut bytes, start) - 1;
    }
    out.put_bytes(&bytes[start..])
}

/// Puts words and a value behind them. Where memory runs out, the text is empty.
pub fn put_named<T: Shown>(out: &mut Text, words: &str, value: &T) -> Result<(), Memory>
    ensures { Puts out.old (words.now ++ T.shown value.now) out.new result }
{
    out.put(words)?;
    value.show(out)
}

/// Puts a space and a number behind it.
pub(crate) fn put_behind(out: &mut Text, number: &i64) -> Result<(), Memory>
    ensures { Puts out.old (behind number.now) out.new result }
{
    out.put(" ")?;
    out.put_whole(number)
}

/// Puts two numbers, each behind a space.
pub(crate) fn put_pair(out: &mut Text, first: &i64, second: &i64) -> Result<(), Memory>
    ensures { Puts out.old (behind first.now ++ behind second.now) out.new result }
{
    put_behind(out, first)?;
    put_behind(out, second)
}
