//! Searching the pairs one by one, and removing one of them.
ghost use Rattle.std.specs.Prelude.{◌≡◌, true, Contains, MatchOption, MatchBool, position};
ghost use Rattle.bimap_base.specs.Kept.{MayTestPair, TestedAt};
ghost use Rattle.bimap_any.specs.Visited.{MayVisit, IsVisited};
ghost use Rattle.bimap_base.specs.Sets.{IsApart, HasLeft, LacksLeft, HasRight, LacksRight};
ghost use Rattle.test_support.specs.Plain.{IsTaken};

pub fn has_left<L: Eq, R>(pairs: &[(L, R)], left: &L) -> bool
    ensures { MatchBool result (HasLeft L.eq (Contains pairs.now) left.now)
        (LacksLeft L.eq (Contains pairs.now) left.now) }
{
    match find_left(pairs, left) {
        None => false,
        Some(_) => true,
    }
}

pub fn has_right<L, R: Eq>(pairs: &[(L, R)], right: &R) -> bool
    ensures { MatchBool result (HasRight R.eq (Contains pairs.now) right.now)
        (LacksRight R.eq (Contains pairs.now) right.now) }
{
    match find_right(pairs, right) {
        None => false,
        Some(_) => true,
    }
}

pub fn find_left<'a, L: Eq, R>(pairs: &'a [(L, R)], left: &L) -> Option<&'a (L, R)>
    ensures { MatchOption result (LacksLeft L.eq (Contains pairs.now) left.now)
        (λ p. Contains pairs.now p.now × (L.eq p.now.0 left.now ≡ true)) }
{
    for pair in pairs {
        if pair.0 == *left {
            return Some(pair);
        }
    }
    None
}

pub fn find_right<'a, L, R: Eq>(pairs: &'a [(L, R)], right: &R) -> Option<&'a (L, R)>
    ensures { MatchOption result (LacksRight R.eq (Contains pairs.now) right.now)
        (λ p. Contains pairs.now p.now × (R.eq p.now.1 right.now ≡ true)) }
{
    for pair in pairs {
        if pair.1 == *right {
            return Some(pair);
        }
    }
    None
}

pub fn visit<L, R, F: FnMut(&L, &R)>(pairs: &[(L, R)], mut f: F)
    requires { MayVisit F.FnMut f pairs.now }
    ensures { IsVisited F.FnMut f pairs.now }
{
    for i in 0..pairs.len() {
        tell(&mut f, &pairs[i]);
    }
}

fn tell<L, R, F: FnMut(&L, &R)>(f: &mut F, pair: &(L, R))
    requires { MayTestPair F.FnMut f.old pair.now }
    ensures { TestedAt F.FnMut f.old pair.now tt f.new }
{
    f(&pair.0, &pair.1)
}

// Returns the first place with an equal left.
fn place_of_left<L: Eq, R>(pairs: &[(L, R)], left: &L) -> Option<usize>
    ensures { result ≡ position (λ p. L.eq p.0 left.now) pairs.now }
{
    pairs.iter().position(|pair| pair.0 == *left)
}

// Returns the first place with an equal right.
fn place_of_right<L, R: Eq>(pairs: &[(L, R)], right: &R) -> Option<usize>
    ensures { result ≡ position (λ p. R.eq p.1 right.now) pairs.now }
{
    pairs.iter().position(|pair| pair.1 == *right)
}

// Removes the pair with this left and returns it, if there is one.
pub fn take_left<L: Eq + Drop, R: Eq + Drop>(pairs: &mut Vec<(L, R)>, left: &L) -> Option<(L, R)>
    requires { IsApart L.eq R.eq pairs.old.items }
    ensures { IsTaken L.eq R.eq (λ p. p.0) L.eq pairs.old left.now result pairs.new }
{
    let place = place_of_left(pairs, left)?;
    Some(pairs.remove(place))
}

// Removes the pair with this right and returns it, if there is one.
pub fn take_right<L: Eq + Drop, R: Eq + Drop>(pairs: &mut Vec<(L, R)>, right: &R) -> Option<(L, R)>
    requires { IsApart L.eq R.eq pairs.old.items }
    ensures { IsTaken L.eq R.eq (λ p. p.1) R.eq pairs.old right.now result pairs.new }
{
    let place = place_of_right(pairs, right)?;
    Some(pairs.remove(place))
}
