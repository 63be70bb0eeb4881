//! Reads lines as calls. This file does not know bimaps, nor where lines come from.
ghost use Rattle.std.specs.Prelude.{◌≡◌, ◌≢◌, ◌∷◌, ◌++◌, List, ℕ, MatchOption};
ghost use Rattle.bimap_rows.specs.Lines.{IsNumeral, IsSymbol, letter, policy_text, IsPairText, command_text, IsArguments, SaysCall};
ghost use Rattle.bimap_rows.specs.Steps.{IsRead};
ghost use Rattle.bimap_rows.specs.declared.line.Command.{Command};
ghost use Rattle.bimap.specs.declared.call.Call.{Call};

use bimap::{Call, OnHeld, Policy};

/// A call that a line can name.
pub type Request = Call<char, u32, ()>;

/// A line as it was read.
#[derive(Debug, Drop)]
pub enum Line {
    Empty,
    Call(Request),
    Bad,
}

/// The first word of a line.
#[derive(Clone, Copy, Debug, Eq, PartialEq)]
enum Command {
    Insert,
    Put,
    InsertWith,
    DropLeft,
    DropRight,
    Clear,
}

// Returns the command that a text begins with, and what follows the command.
fn split_command(text: &str) -> Option<(Command, &str)>
    ensures { MatchOption result ((command : Command) (rest : List ℕ) →
        text.now ≢ command_text command ++ rest) (λ p. text.now ≡ command_text p.0 ++ p.1.now) }
{
    if let Some(rest) = text.strip_prefix("insert ") {
        return Some((Command::Insert, rest));
    }
    if let Some(rest) = text.strip_prefix("put ") {
        return Some((Command::Put, rest));
    }
    if let Some(rest) = text.strip_prefix("insert-with ") {
        return Some((Command::InsertWith, rest));
    }
    if let Some(rest) = text.strip_prefix("drop-left ") {
        return Some((Command::DropLeft, rest));
    }
    if let Some(rest) = text.strip_prefix("drop-right ") {
        return Some((Command::DropRight, rest));
    }
    let rest = text.strip_prefix("clear")?;
    Some((Command::Clear, rest))
}

// Returns the character that a word consists of. The character is not a space.
fn parse_symbol(word: &str) -> Option<char>
    ensures { MatchOption result ((c : ℕ) → IsSymbol word.now c → ⊥) (λ c. IsSymbol word.now c) }
{
    match word.parse() {
        Ok(' ') => None,
        Ok(symbol) => Some(symbol),
        Err(_) => None,
    }
}

// Returns the number that a word of digits spells. A sign is not a digit.
fn parse_number(word: &str) -> Option<u32>
    ensures { MatchOption result ((n : ℕ) → IsNumeral word.now n → ⊥) (λ n. IsNumeral word.now n) }
{
    if word.starts_with('+') {
        return None;
    }
    word.parse().ok()
}

// Returns the two values that a text of two words names.
fn parse_pair(text: &str) -> Option<(char, u32)>
    ensures { MatchOption result ((c n : ℕ) → IsPairText text.now c n → ⊥)
        (λ p. IsPairText text.now p.0 p.1) }
{
    let (word, digits) = text.split_once(' ')?;
    Some((parse_symbol(word)?, parse_number(digits)?))
}

// Returns what the first letter says about a value that is in the map already, and what follows the letter.
fn parse_letter(text: &str) -> Option<(OnHeld, &str)>
    ensures { MatchOption result ((held : _) (rest : List ℕ) → text.now ≢ letter held ∷ rest)
        (λ p. text.now ≡ letter p.0 ∷ p.1.now) }
{
    if let Some(rest) = text.strip_prefix('o') {
        return Some((OnHeld::Overwrite, rest));
    }
    let rest = text.strip_prefix('r')?;
    Some((OnHeld::Refuse, rest))
}

// Returns the policy that the first word of a text names, and what follows the space after this word.
fn parse_policy(text: &str) -> Option<(Policy, &str)>
    ensures { MatchOption result ((policy : _) (rest : List ℕ) →
        text.now ≢ policy_text policy ++ rest) (λ p. text.now ≡ policy_text p.0 ++ p.1.now) }
{
    let (left, rest) = parse_letter(text)?;
    let (right, rest) = parse_letter(rest)?;
    let rest = rest.strip_prefix(' ')?;
    Some((Policy { left, right }, rest))
}

// Returns the call that a command makes with the rest of its line.
fn parse_arguments(command: Command, rest: &str) -> Option<Request>
    ensures { MatchOption result ((call : _) → IsArguments command rest.now call → ⊥)
        (λ call. IsArguments command rest.now call) }
{
    match command {
        Command::Insert => {
            let (left, right) = parse_pair(rest)?;
            Some(Call::Insert(left, right))
        }
        Command::Put => {
            let (left, right) = parse_pair(rest)?;
            Some(Call::InsertNoOverwrite(left, right))
        }
        Command::InsertWith => {
            let (policy, rest) = parse_policy(rest)?;
            let (left, right) = parse_pair(rest)?;
            Some(Call::InsertWith(left, right, policy))
        }
        Command::DropLeft => parse_symbol(rest).map(Call::RemoveByLeft),
        Command::DropRight => parse_number(rest).map(Call::RemoveByRight),
        Command::Clear => rest.is_empty().then_some(Call::Clear),
    }
}

// Returns the call that a text names.
fn parse_call(text: &str) -> Option<Request>
    ensures { MatchOption result ((call : _) → SaysCall text.now call → ⊥)
        (λ call. SaysCall text.now call) }
{
    let (command, rest) = split_command(text)?;
    parse_arguments(command, rest)
}

/// Reads a line as a call. The line has no line feed, and no carriage return before it. The function allocates nothing.
pub fn parse_line(text: &[u8]) -> Line
    ensures { IsRead text.now result }
{
    if text.is_empty() {
        return Line::Empty;
    }
    let Ok(text) = str::from_utf8(text) else {
        return Line::Bad;
    };
    parse_call(text).map_or(Line::Bad, Line::Call)
}
