//! The numbers of a ring's slots, None where a slot's gate is closed.
ghost use Rattle.std.specs.Prelude.{◌≡◌, ◌≢◌, ◌↔◌, ℕ, ◌<◌, ◌≤◌, ◌^◌, true, false, Some, None, length, IfSome};
ghost use Rattle.segments.specs.Numbers.{newest_number, open_count, number_at, IsFull, IsNext, IsNewest, IsOldest, NumbersDiffer};

/// The highest number, 0 where no slot is open.
fn newest_number(numbers: &[Option<u64>]) -> u64
    ensures number { result ≡ newest_number numbers.now }
    ensures bound { result < 2 ^ 64 }
{
    let mut newest = 0;
    for slot in 0..numbers.len() {
        if let Some(number) = numbers[slot] {
            newest = newest.max(number);
        }
    }
    newest
}

/// The lowest slot whose gate is closed.
fn lowest_closed(numbers: &[Option<u64>]) -> Option<usize>
    ensures there { IfSome result (λ slot. (slot < length numbers.now) × (number_at numbers.now slot ≡ None)) }
    ensures lowest { IfSome result (λ slot. (other : ℕ) → other < slot → number_at numbers.now other ≢ None) }
    ensures all { result ≡ None → (slot : ℕ) → slot < length numbers.now → number_at numbers.now slot ≢ None }
{
    for slot in 0..numbers.len() {
        if numbers[slot].is_none() {
            return Some(slot);
        }
    }
    None
}

/// The slot that is opened next, and the number that it takes. None where no slot is free.
pub fn next_slot(numbers: &[Option<u64>]) -> Option<(usize, u64)>
    ensures next { IfSome result (λ r. IsNext numbers.now r.0 r.1) }
    ensures full { result ≡ None → IsFull numbers.now }
    ensures bound { IfSome result (λ r. r.1 < 2 ^ 64) }
{
    let newest = newest_number(numbers);
    if newest == u64::MAX {
        return None;
    }
    let slot = lowest_closed(numbers)?;
    Some((slot, newest + 1))
}

/// How many slots are open.
fn open_count(numbers: &[Option<u64>]) -> usize
    ensures { result ≡ open_count numbers.now }
{
    let mut count = 0;
    for slot in 0..numbers.len() {
        if numbers[slot].is_some() {
            count += 1;
        }
    }
    count
}

/// How many slots are open. A slot more than there are is never counted.
pub fn count_open(numbers: &[Option<u64>]) -> u64
    ensures count { result ≡ open_count numbers.now }
    ensures bound { result ≤ length numbers.now }
{
    open_count(numbers) as u64
}

/// The highest number of a slot, 0 where none is open.
pub fn highest(numbers: &[Option<u64>]) -> u64
    ensures { result ≡ newest_number numbers.now }
{
    newest_number(numbers)
}

/// The open slot of the lowest number.
fn oldest(numbers: &[Option<u64>]) -> Option<usize>
    ensures oldest { IfSome result (λ slot. (number : ℕ) × IsOldest numbers.now slot number) }
    ensures there { IfSome result (λ slot. slot < length numbers.now) }
    ensures closed { result ≡ None → (slot : ℕ) → number_at numbers.now slot ≡ None }
{
    let mut oldest = None;
    for slot in 0..numbers.len() {
        if let Some(number) = numbers[slot] {
            oldest = match oldest {
                Some((known, lowest)) if lowest <= number => Some((known, lowest)),
                _ => Some((slot, number)),
            };
        }
    }
    let (slot, _) = oldest?;
    Some(slot)
}

/// The open slot of the lowest number, where two or more are open.
pub fn oldest_of_two(numbers: &[Option<u64>]) -> Option<usize>
    ensures oldest { IfSome result (λ slot. (number : ℕ) × IsOldest numbers.now slot number) }
    ensures there { IfSome result (λ slot. slot < length numbers.now) }
    ensures few { result ≡ None ↔ (open_count numbers.now < 2) }
{
    if open_count(numbers) < 2 {
        return None;
    }
    oldest(numbers)
}

/// The open slot of the highest number.
pub fn newest(numbers: &[Option<u64>]) -> Option<usize>
    ensures newest { IfSome result (λ slot. (number : ℕ) × IsNewest numbers.now slot number) }
    ensures there { IfSome result (λ slot. slot < length numbers.now) }
    ensures closed { result ≡ None → (slot : ℕ) → number_at numbers.now slot ≡ None }
{
    let mut newest = None;
    for slot in 0..numbers.len() {
        if let Some(number) = numbers[slot] {
            newest = match newest {
                Some((known, highest)) if highest >= number => Some((known, highest)),
                _ => Some((slot, number)),
            };
        }
    }
    let (slot, _) = newest?;
    Some(slot)
}

/// Whether open slots have different numbers.
pub fn differ(numbers: &[Option<u64>]) -> bool
    ensures differ { result ≡ true → NumbersDiffer numbers.now }
    ensures same { result ≡ false → ¬ NumbersDiffer numbers.now }
{
    for slot in 0..numbers.len() {
        if let Some(number) = numbers[slot] {
            if is_below(numbers, slot, number) {
                return false;
            }
        }
    }
    true
}

/// Whether a slot below this one has this number.
fn is_below(numbers: &[Option<u64>], slot: usize, number: u64) -> bool
    requires { slot ≤ length numbers.now }
    ensures found { result ≡ true → (other : ℕ) × (other < slot) × (number_at numbers.now other ≡ Some number) }
    ensures none { result ≡ false → (other : ℕ) → other < slot → number_at numbers.now other ≢ Some number }
{
    for other in 0..slot {
        if numbers[other] == Some(number) {
            return true;
        }
    }
    false
}
