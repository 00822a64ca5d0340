//! Ranges over Integers and over one-byte Strings (ISO/IEC 30170:2012, 15.2.14).
ghost use Rattle.std.specs.Prelude.{◌≡◌, ◌+◌, ◌<◌, ◌≤◌, ◌↔◌, length, IsTrue, MatchOption};
ghost use Rattle.rb_integer.specs.Dots.{dots_of};

use crate::failure::IntegerFailure;
use crate::numeral::decimal;
use crate::text::Text;

/// An item of a Range: an Integer, or a String of this one byte.
#[derive(Clone, Copy, Debug, PartialEq, Eq)]
pub enum Item {
    Integer(i64),
    Byte(u8),
}

/// The two ends of a Range: Integers, or Strings of one byte each.
#[derive(Clone, Copy, Debug, PartialEq, Eq)]
pub enum Bounds {
    Integers(i64, i64),
    Bytes(u8, u8),
}

/// What a Range keeps: its ends, and whether the last one is no item. Two are equal where both parts are.
#[derive(Clone, Copy, Debug, PartialEq, Eq)]
pub struct Ends {
    pub bounds: Bounds,
    pub is_exclusive: bool,
}

impl Item {
    ghost use Rattle.rb_integer.specs.Ends as ends;

    /// `item.to_s`: decimal digits, or the byte.
    fn to_text(self) -> Text
        ensures value { result ≡ ends.item_text self }
        ensures short { length result ≤ 20 }
    {
        match self {
            Item::Integer(number) => decimal(number),
            Item::Byte(byte) => Text::joined(&[byte], b""),
        }
    }
}

/// What stands between the ends.
fn dots(is_exclusive: bool) -> &'static [u8]
    ensures { result.now ≡ dots_of is_exclusive }
{
    if is_exclusive { b"..." } else { b".." }
}

impl Bounds {
    ghost use Rattle.rb_integer.specs.Ends as ends;

    /// The first end as a number.
    fn low(self) -> i64
        ensures { result ≡ ends.low self }
    {
        match self {
            Bounds::Integers(low, _) => low,
            Bounds::Bytes(low, _) => i64::from(low),
        }
    }

    /// The last end as a number.
    fn high(self) -> i64
        ensures { result ≡ ends.high self }
    {
        match self {
            Bounds::Integers(_, high) => high,
            Bounds::Bytes(_, high) => i64::from(high),
        }
    }
}

impl Ends {
    ghost use Rattle.rb_integer.specs.Ends as ends;
    ghost use Rattle.std.specs.Prelude as prelude;

    /// The ends of a Range over two Strings. A failure unless each has one byte.
    pub fn of_strings(first: &[u8], last: &[u8], is_exclusive: bool) -> Result<Ends, IntegerFailure>
        ensures { result ≡ ends.string_ends first.now last.now is_exclusive }
    {
        if first.len() != 1 {
            return Err(IntegerFailure::BadEnds);
        }
        if last.len() != 1 {
            return Err(IntegerFailure::BadEnds);
        }
        Ok(Ends {
            bounds: Bounds::Bytes(first[0], last[0]),
            is_exclusive,
        })
    }

    /// `range.first` without a count, and `range.begin`.
    pub fn first(self) -> Item
        ensures { result ≡ ends.first self.bounds }
    {
        match self.bounds {
            Bounds::Integers(first, _) => Item::Integer(first),
            Bounds::Bytes(first, _) => Item::Byte(first),
        }
    }

    /// `range.last` and `range.end`, also where that end is no item.
    pub fn last(self) -> Item
        ensures { result ≡ ends.last self.bounds }
    {
        match self.bounds {
            Bounds::Integers(_, last) => Item::Integer(last),
            Bounds::Bytes(_, last) => Item::Byte(last),
        }
    }

    /// `range == other`.
    pub fn is_equal(self, other: Ends) -> bool
        ensures { IsTrue result ↔ (self ≡ other) }
    {
        self == other
    }

    /// How many items follow the first one, or nothing where there is none.
    fn items_behind_first(self) -> Option<u64>
        ensures { MatchOption result (ends.count self.bounds self.is_exclusive ≡ 0)
            (λ more. ends.count self.bounds self.is_exclusive ≡ more + 1) }
    {
        let low = self.bounds.low();
        let high = self.bounds.high();
        if self.is_exclusive {
            if low < high {
                Some(high.abs_diff(low) - 1)
            } else {
                None
            }
        } else if low <= high {
            Some(high.abs_diff(low))
        } else {
            None
        }
    }

    /// `range.size`: the number of items, or an overflow.
    #[tactic(auto, unfolding(crate::specs::Exact::exact))]
    pub fn size(self) -> Result<i64, IntegerFailure>
        ensures { result ≡ ends.size self.bounds self.is_exclusive }
    {
        match self.items_behind_first() {
            None => Ok(0),
            Some(more) => {
                if more < i64::MAX as u64 {
                    Ok(more as i64 + 1)
                } else {
                    Err(IntegerFailure::Overflow)
                }
            }
        }
    }

    /// How many items `range.first(count)` gives. A failure where the count is below 0.
    pub fn first_count(self, count: i64) -> Result<u64, IntegerFailure>
        ensures { result ≡ ends.first_count self.bounds self.is_exclusive count }
    {
        if count < 0 {
            return Err(IntegerFailure::NegativeCount);
        }
        let wanted = count as u64;
        match self.items_behind_first() {
            None => Ok(0),
            Some(more) => {
                if wanted <= more {
                    Ok(wanted)
                } else {
                    Ok(more + 1)
                }
            }
        }
    }

    /// An item by its index from 0.
    pub fn item(self, index: u64) -> Item
        requires { index < ends.count self.bounds self.is_exclusive }
        ensures { result ≡ ends.item self.bounds index }
    {
        match self.bounds {
            Bounds::Integers(first, _) => Item::Integer(first.wrapping_add_unsigned(index)),
            Bounds::Bytes(first, _) => Item::Byte(first + index as u8),
        }
    }

    /// `range.include?(item)`, `member?` and `===`: whether it is one of the items.
    pub fn includes(self, item: Item) -> bool
        ensures { result ≡ ends.includes self.bounds self.is_exclusive item }
    {
        let value = match (self.bounds, item) {
            (Bounds::Integers(_, _), Item::Integer(value)) => value,
            (Bounds::Bytes(_, _), Item::Byte(value)) => i64::from(value),
            _ => return false,
        };
        if self.is_exclusive {
            self.bounds.low() <= value && value < self.bounds.high()
        } else {
            self.bounds.low() <= value && value <= self.bounds.high()
        }
    }

    /// `range.to_s`: the texts of the ends around two dots, or three where the last end is no item.
    pub fn to_text(self) -> Text
        ensures { result ≡ ends.text self.bounds self.is_exclusive }
    {
        let first = self.first().to_text();
        let last = self.last().to_text();
        let front = Text::joined(first.as_slice(), dots(self.is_exclusive));
        Text::joined(front.as_slice(), last.as_slice())
    }
}
