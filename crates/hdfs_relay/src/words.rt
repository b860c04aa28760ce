//! The words of the command.

ghost use Rattle.std.specs.Prelude.{◌≡◌, ◌≤◌, ◌↔◌, ℕ, codes, map, slice_index, string_bytes, IsTrue, MatchOption};
ghost use Rattle.hdfs_relay.specs.Relays.{IsRelay, Writes};

/// The most packets beside the last one.
const PACKETS_MOST: u32 = 10_000;

/// The greatest window.
const WINDOW_MOST: u32 = 1_000;

/// How many packets are relayed beside the last one, and how many of them may wait for their acknowledgement.
#[derive(Clone, Copy)]
pub(crate) struct Relay {
    pub(crate) packets: u32,
    pub(crate) window: u32,
}

/// Whether a text begins with a digit that isn't 0.
fn begins_well(text: &str) -> bool
    ensures { IsTrue result ↔ (49 ≤ slice_index text.now 0) × (slice_index text.now 0 ≤ 57) }
{
    match text.as_bytes().first() {
        Some(first) => (b'1'..=b'9').contains(first),
        None => false,
    }
}

/// The number from 1 to `most` that a text writes in digits, without a leading zero.
fn number(text: &str, most: u32) -> Option<u32>
    ensures { MatchOption result ((number : ℕ) → Writes most text.now number → ⊥)
        (λ number. Writes most text.now number) }
{
    if !begins_well(text) {
        return None;
    }
    match text.parse::<u32>() {
        Ok(number) if number >= 1 && number <= most => Some(number),
        _ => None,
    }
}

/// Whether a word is that of the command.
fn is_relay_word(word: &str) -> bool
    ensures { IsTrue result ↔ (word.now ≡ codes "relay") }
{
    word == "relay"
}

/// What the words ask for, where they are those of the command.
pub(crate) fn relay_of(words: &[String]) -> Option<Relay>
    ensures { MatchOption result ((packets window : ℕ) → IsRelay (map string_bytes words.now) packets window → ⊥)
        (λ relay. IsRelay (map string_bytes words.now) relay.packets relay.window) }
{
    if words.len() != 3 || !is_relay_word(words[0].as_str()) {
        return None;
    }
    let Some(packets) = number(words[1].as_str(), PACKETS_MOST) else {
        return None;
    };
    let Some(window) = number(words[2].as_str(), WINDOW_MOST) else {
        return None;
    };
    Some(Relay { packets, window })
}
