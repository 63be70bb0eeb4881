//! The text that `help` prints.

/// The lines that the shell accepts.
pub const HELP: &str =
    "A line is a call. The shell makes it on each kind of map: ordered (BiBTreeMap), hashed (BiHashMap),
ordered-hashed (BiBTreeHashMap), hashed-ordered (BiHashBTreeMap), insertion-order (BiInsertionOrderMap) and
crowded (a BiHashMap in which all keys have the same hash).
If the answers differ, the names of the kinds stand before them. A kind without the call prints nothing.
An answer of more than 4,096 bytes is shown as its two ends and its length.

L and R are values: words of up to 16 bytes. A word can have a note, as in ann'2. The shell prints notes, but
no comparison sees them. N is a number. POLICY is two letters, left then right: o overwrites, r refuses.
PAIRS is L R L R .., or `each N L R`. The latter means N pairs, in which a number of seven digits replaces
each #. `run each N CALL` and `json .. each N MEMBER` repeat in the same way.
ANSWER: Neither, Left L R, Right L R, Pair L R, Both L R L R
STEPS: front back len copy rest   RANGE: .. b.. b..d b..=d ..d ..=d, and >b.. without its start

  kinds: NAME ..                              uses these kinds, or all; every map is empty then
  anew                                        empties every map
  new · with_capacity N · from_iter PAIRS · from_iter_with POLICY PAIRS
  with_hashers                                if both sides are hashed; if one side is, with_hasher
  show · len · is_empty · capacity · for_each
  get_by_left L · get_by_right R · contains_left L · contains_right R · contains_pair L R
  insert L R · insert_no_overwrite L R · insert_with POLICY L R · get_by_left_or_insert L R
  put POLICY L R · get_by_right_or_insert L R · get_by_left_or_insert_with L R
  extend PAIRS · extend_with POLICY PAIRS
  remove_by_left L · remove_by_right R · clear · retain R     (keeps each right of at least R)
  extract_into R · drain_into                 (moves each right of at least R, or all pairs, to a list)
  replace_left L L · replace_right R R · swap_partners L L
  reserve N · shrink_to N · shrink_to_fit
  undo_insert L ANSWER · can_undo_insert L ANSWER
  undo_run PAIRS                              inserts these pairs and undoes the insertions
  perform CALL · run CALL; CALL; ..
  iter STEPS · into_iter STEPS · left_values STEPS · right_values STEPS
  left_range RANGE STEPS · right_range RANGE STEPS
  left_range_between RANGE STEPS · right_range_between RANGE STEPS     (empty if it runs backwards)
  first_by_left · last_by_left · pop_first_by_left · pop_last_by_left
  pair_at_left_rank N · left_rank L           these six exist by right too
  first · last · pop_first · pop_last · to_front L · to_back L     (of insertion-order)
  into_inverse                                exchanges the sides, shows the map, and exchanges them again
  clone · swap · eq · partial_cmp · cmp · hash · is_subset_of · holds_same_pairs     (with the other map, which clone makes)
  undoable insert L R · undoable insert_with POLICY L R · undoable insert_all POLICY PAIRS
  undoable replace_left L L · undoable replace_right R R
  undoable remove_by_left L · undoable remove_by_right R
  undoable last_change · undoable mark · undoable changes_since N
  undoable back_to N · undoable undo_last N · undoable forget
  undoable new · undoable held · undoable into_inner
  json LEFT RIGHT POLICY TEXT                 LEFT and RIGHT are the same type: char String bool u8 u16 u32 u64 usize
      i8 i16 i32 i64. Or they are: char u8 · char i32 · String char · String u8 · u8 String · u32 i64 · u64 char · i32 u8 · i32 u64 · i64 u32
  json_pairs LEFT RIGHT POLICY TEXT           TEXT is an array of pairs, which keeps the order of iteration

These words stand before a call:
  times N CALL                makes the call N times; # is the number of the time, % the same in mixed order
  inverse CALL                uses the map with its sides exchanged: look-ups, calls of one pair, runs
  counted CALL                shows how many comparisons the call made
  bounded CALL                shows whether they are within the bound
  refusing CALL               refuses every allocation
  retrying CALL               makes the call again and again, each time with a little more memory
";
