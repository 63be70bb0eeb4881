//! What any map shows from both sides after a run that started with no pair.
ghost use Rattle.std.specs.Prelude.{◌≡◌, [], IfOk, IfErr};
ghost use Rattle.std.specs.List.{zip};
ghost use Rattle.bimap.specs.Test.{Answers, IsTestOf};
ghost use Rattle.bimap.specs.BTree.{holding};
ghost use Rattle.bimap.specs.Digits.{most_height};
ghost use Rattle.demo_any.specs.Shown.{IsShown};

use bimap::btree::Meter;
use bimap::{BiBTreeMap, BijectiveMap, Call, Index, Reply, RunRefused, run};
use std::alloc::Global;

/// The replies to the calls of a run, and what the map then shows from both sides.
#[derive(Drop)]
pub struct Shown<'a, L, R> {
    pub replies: Vec<Reply<L, R>>,
    pub of_left: Option<&'a R>,
    pub of_right: Option<&'a L>,
}

/// Performs the calls on an empty map of any type, and then looks up a left and a right. A meter counts each look-up.
///
/// A look-up takes one search, and `effort` bounds its comparisons. On a hashed side this bound is 0. The function
/// allocates for the replies, and the calls allocate what they need. An `Err` contains the calls, and none of them was
/// performed.
#[tactic(auto, using(bimap::proofs::Histories::IsWholeHistory_from))]
pub fn run_and_look<
    'a,
    L: Eq + Drop,
    R: Eq + Drop,
    I: Index<L>,
    J: Index<R>,
    K: Drop,
    F: Fn(&K, &L, &R) -> bool,
    M: Meter,
>(
    alloc: Global,
    bimap: &'a mut BijectiveMap<L, R, I, J>,
    calls: Vec<Call<L, R, K>>,
    test: F,
    left: &L,
    right: &R,
    of_left: &mut M,
    of_right: &mut M,
) -> Result<Shown<'a, L, R>, RunRefused<L, R, K>>
    requires empty { (holding bimap.old).pairs ≡ [] }
    requires tested { IsTestOf F.Fn test (holding bimap.old).pairs calls.items }
    ensures shown { IfOk result (λ shown. IsShown L.eq R.eq (Answers F.Fn test)
        I.effort J.effort
        (zip calls.items shown.replies.items) left.now right.now shown.of_left shown.of_right
        (M.comparisons of_left.old) (M.comparisons of_left.new)
        (M.comparisons of_right.old) (M.comparisons of_right.new)) }
    ensures handed_back { IfErr result (λ refused. refused.calls.items ≡ calls.items) }
{
    let replies = run(alloc, bimap, calls, test)?;
    Ok(Shown {
        replies,
        of_left: bimap.get_by_left_metered(left, of_left),
        of_right: bimap.get_by_right_metered(right, of_right),
    })
}

/// Does what [`run_and_look`] does, for a map with two ordered sides. Here the bound `effort` is twice the number of
/// binary digits of the length.
pub fn run_and_look_ordered<
    'a,
    L: Ord + Drop,
    R: Ord + Drop,
    K: Drop,
    F: Fn(&K, &L, &R) -> bool,
    M: Meter,
>(
    alloc: Global,
    bimap: &'a mut BiBTreeMap<L, R>,
    calls: Vec<Call<L, R, K>>,
    test: F,
    left: &L,
    right: &R,
    of_left: &mut M,
    of_right: &mut M,
) -> Result<Shown<'a, L, R>, RunRefused<L, R, K>>
    requires empty { (holding bimap.old).pairs ≡ [] }
    requires tested { IsTestOf F.Fn test (holding bimap.old).pairs calls.items }
    ensures shown { IfOk result (λ shown. IsShown L.eq R.eq (Answers F.Fn test)
        most_height most_height
        (zip calls.items shown.replies.items) left.now right.now shown.of_left shown.of_right
        (M.comparisons of_left.old) (M.comparisons of_left.new)
        (M.comparisons of_right.old) (M.comparisons of_right.new)) }
    ensures handed_back { IfErr result (λ refused. refused.calls.items ≡ calls.items) }
{
    run_and_look(alloc, bimap, calls, test, left, right, of_left, of_right)
}
