// A list of at most N items, which lie in the value itself: it is copied as a number is.
ghost use Rattle.std.specs.Prelude.{⊤, ◌≡◌, ◌+◌, ◌<◌, ◌≤◌, ◌↔◌, ◌∷◌, ◌++◌, [], length, take, drop, IsOk, OnOk, OnErr, IsTrue, MatchResult};
ghost use Rattle.std.specs.Cmp.{on_equiv, on_total, on_po, on_per};
ghost use Rattle.std.specs.Cmp.Lexicographic.{pointwise, slice_cmp, slice_partial_cmp, lists_per, lists_equiv, lists_po, lists_total, lists_agrees, lists_ties};

use arrayvec::CapacityError;
use std::alloc::AllocError;
use std::cmp::Ordering;
use std::marker::Model;
use std::ops::DerefSlice;

// What stands in a place that holds no item.
pub trait Blank: Copy {
    ghost blank: { Self };

    fn blank() -> Self
        ensures { result ≡ blank };
}

impl Blank for u16 {
    ghost blank = { 0 };

    fn blank() -> u16 {
        0
    }
}

// The items stand at the front of the places, and blanks behind them: so two lists of the same items are one value.
// An ArrayVec would do, were it Copy.
#[derive(Copy)]
pub struct Inline<T: Blank, const N: usize> {
    pub(crate) places: [T; N],
    pub(crate) count: usize,
}

impl<T: Blank, const N: usize> Model for Inline<T, N> {
    ghost use Rattle.std.specs.Prelude.{◌≡◌, ◌-◌, ◌≤◌, ◌++◌, length, take, drop, replicate};
    ghost use Rattle.entries.specs.Items.{Items, items_code};
    ghost use Rattle.entries.specs.Padding.{padded_back};

    ghost Value = { Items T };

    ghost coded = { items_code T.code };

    ghost view = { λ l. record { items = take l.count l.places } };

    ghost invariant = { λ l. (l.count ≤ N) × (length l.places ≡ N) × (drop l.count l.places ≡ replicate (N - l.count) T.blank) };

    ghost inverse = { λ l. record { places = l.items ++ replicate (N - length l.items) T.blank; count = length l.items } };

    ghost inverse_ok = { λ l h i. record {
      places = (padded_back T.blank l.places l.count N h).0 i;
      count = (padded_back T.blank l.places l.count N h).1 i;
    } };
}

impl<T: Blank, const N: usize> Inline<T, N> {
    pub fn new() -> Inline<T, N>
        ensures { result.items ≡ [] }
    {
        Inline {
            places: [T::blank(); N],
            count: 0,
        }
    }

    pub fn as_slice(&self) -> &[T]
        ensures value { result.now ≡ self.now.items }
        ensures fits { length result.now ≤ N }
    {
        &self.places[..self.count]
    }

    pub fn is_full(&self) -> bool
        ensures { IsTrue result ↔ (N ≤ length self.now.items) }
    {
        self.count == N
    }

    // Puts an item behind the others, if there is room.
    pub fn try_push(&mut self, item: T) -> Result<(), CapacityError>
        ensures variant { IsOk result ↔ (length self.old.items < N) }
        ensures ok { OnOk result (self.new.items ≡ self.old.items ++ item ∷ []) }
        ensures err { OnErr result (self.new ≡ self.old) }
    {
        if self.count >= N {
            return Err(CapacityError::new(()));
        }
        self.places[self.count] = item;
        self.count += 1;
        Ok(())
    }

    // Puts items behind the others, or none of them where there is no room for all.
    pub fn try_extend_from_slice(&mut self, items: &[T]) -> Result<(), CapacityError>
        ensures variant { IsOk result ↔ (length self.old.items + length items.now ≤ N) }
        ensures ok { OnOk result (self.new.items ≡ self.old.items ++ items.now) }
        ensures err { OnErr result (self.new ≡ self.old) }
    {
        if N - self.count < items.len() {
            return Err(CapacityError::new(()));
        }
        write_at(self.count, items, &mut self.places[..]);
        self.count += items.len();
        Ok(())
    }
}

// Writes items over those that stand from a place on.
fn write_at<T: Copy>(from: usize, items: &[T], places: &mut [T])
    requires { from + length items.now ≤ length places.old }
    ensures { places.new ≡ take from places.old ++ items.now ++ drop (from + length items.now) places.old }
{
    places[from..from + items.len()].copy_from_slice(items);
}

impl<T: Blank, const N: usize> TryFrom<&[T]> for Inline<T, N> {
    type Error = CapacityError;

    ghost try_from_gives = { λ items r. MatchResult r (λ l. (l.items ≡ items.now) × (length items.now ≤ N)) (λ _. N < length items.now) };

    fn try_from(items: &[T]) -> Result<Inline<T, N>, CapacityError> {
        let mut list = Inline::new();
        list.try_extend_from_slice(items)?;
        Ok(list)
    }
}

// By hand, here and below: no derive goes by what a view tells.
impl<T: Blank, const N: usize> Clone for Inline<T, N> {
    ghost is_clone = { λ x y. y ≡ x };

    ghost is_infallible = { λ _. ⊤ };

    fn clone(&self) -> Result<Inline<T, N>, AllocError> {
        Ok(*self)
    }
}

impl<T: Blank, const N: usize> DerefSlice for Inline<T, N> {
    type Elem = T;

    ghost deref_gives = { λ l items. (items ≡ l.items) × (length items ≤ N) };

    fn deref(&self) -> &[T] {
        self.as_slice()
    }
}

impl<T: Blank + PartialEq, const N: usize> PartialEq for Inline<T, N> {
    ghost eq = { λ l m. pointwise T.eq l.items m.items };

    ghost laws = { on_per (λ l. l.items) (lists_per T.laws) };

    fn eq(&self, other: &Self) -> bool {
        self.as_slice() == other.as_slice()
    }
}

impl<T: Blank + Eq, const N: usize> Eq for Inline<T, N> {
    ghost laws = { on_equiv (λ l. l.items) (lists_equiv T.Eq.laws) };
}

impl<T: Blank + PartialOrd, const N: usize> PartialOrd for Inline<T, N> {
    ghost partial_cmp = { λ l m. slice_partial_cmp T.partial_cmp l.items m.items };

    ghost laws = { on_po (λ l. l.items) (lists_po T.PartialOrd.laws) };

    fn partial_cmp(&self, other: &Self) -> Option<Ordering> {
        self.as_slice().partial_cmp(&other.as_slice())
    }
}

impl<T: Blank + Ord, const N: usize> Ord for Inline<T, N> {
    ghost cmp = { λ l m. slice_cmp T.cmp l.items m.items };

    ghost total = { on_total (λ l. l.items) (lists_total T.total) };

    ghost matches_partial_cmp = { λ l m. lists_agrees T.matches_partial_cmp l.items m.items };

    ghost matches_eq = { λ l m. lists_ties T.cmp T.matches_eq l.items m.items };

    fn cmp(&self, other: &Self) -> Ordering {
        self.as_slice().cmp(&other.as_slice())
    }
}
