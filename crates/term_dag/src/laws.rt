//! Laws of the definitions, each the contract of a function that does nothing. The lemmas of the same content, which a proof
//! above may cite, are `WidthLemmas` and `ValueLemmas`.
ghost use Rattle.std.specs.Prelude.{◌≡◌, ◌++◌, ◌<◌, ◌≤◌, List, length};
ghost use Rattle.bits_core.specs.declared.number.TheConstants.{MAX_WIDTH};
ghost use Rattle.bits_core.specs.declared.number.Bits.{Bits};
ghost use Rattle.bits_core.specs.declared.points.Point.{Point};
ghost use Rattle.term_dag.specs.declared.node.Node.{Node};
ghost use Rattle.term_dag.specs.declared.node.Term.{Term};
ghost use Rattle.term_dag.specs.Mention.{AreSameOn, HasMentioned};
ghost use Rattle.term_dag.specs.Value.{Values};
ghost use Rattle.term_dag.specs.Width.{IsDag, width_of};

/// When nodes are added a term keeps its width, and stands for what it stood for and nothing else.
pub fn terms_are_kept()
    ensures width { (nodes more : List Node) (t : Term) → IsDag nodes → t.number < length nodes
        → width_of (nodes ++ more) t ≡ width_of nodes t }
    ensures kept { (nodes more : List Node) (p : Point) (t : Term) (b : Bits) → IsDag nodes
        → Values nodes p t b → Values (nodes ++ more) p t b }
    ensures nothing_new { (nodes more : List Node) (p : Point) (t : Term) (b : Bits) → IsDag nodes
        → t.number < length nodes → Values (nodes ++ more) p t b → Values nodes p t b }
{}

/// At a point a term stands for one number at most, which has the term's width.
pub fn terms_stand_for_one_number()
    ensures one { (nodes : List Node) (p : Point) (t : Term) (b c : Bits) → IsDag nodes
        → Values nodes p t b → Values nodes p t c → b ≡ c }
    ensures width { (nodes : List Node) (p : Point) (t : Term) (b : Bits) → IsDag nodes
        → Values nodes p t b → b.width ≡ width_of nodes t }
{}

/// A term has as many bits as a number may have.
pub fn terms_have_1_to_128_bits()
    ensures { (nodes : List Node) (t : Term) → IsDag nodes → t.number < length nodes
        → (1 ≤ width_of nodes t) × (width_of nodes t ≤ MAX_WIDTH) }
{}

/// A term stands for a number exactly at the points that have its input bits, and its reads in their widths.
pub fn terms_stand_where_the_point_has_all()
    ensures stands { (nodes : List Node) (p : Point) (t : Term) → IsDag nodes
        → t.number < length nodes → HasMentioned nodes t p → (b : Bits) × Values nodes p t b }
    ensures nowhere_else { (nodes : List Node) (p : Point) (t : Term) (b : Bits) → IsDag nodes
        → Values nodes p t b → HasMentioned nodes t p }
{}

/// What a term stands for goes by what it mentions.
pub fn terms_go_by_what_they_mention()
    ensures { (nodes : List Node) (p q : Point) (t : Term) (b : Bits) → IsDag nodes
        → AreSameOn nodes t p q → Values nodes p t b → Values nodes q t b }
{}
