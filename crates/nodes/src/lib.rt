// One node over two trees of the table.
#![tactic(auto)]

ghost use Rattle.std.specs.Prelude.{◌≡◌};
ghost use Rattle.table.specs.Layout.{cap};
ghost use Rattle.table.specs.Rep.{node_on};
ghost use Rattle.nodes.specs.Joining.{Joined, Raised};

// One node of height `h` over two trees side by side, `p` on a side and `q` on the other, kept in the slot `gap` of the seam. `c` is the
// capacity.
pub fn set_node(
    part: &mut [i64],
    c: u32,
    tree: u8,
    side: bool,
    gap: u32,
    p: u32,
    q: u32,
    h: u32,
) -> u32
    requires { c ≡ cap part.old }
    ensures { Raised tree side gap p q h part.old part.new result }
{
    if gap > table::MOST_SLOTS {
        return 0;
    }
    table::put_three_in(
        part,
        c,
        gap,
        table::child_field(tree, side),
        p as i64,
        table::child_field(tree, !side),
        q as i64,
        table::height_field(tree),
        h as i64,
    );
    table::MOST_SLOTS + gap
}

// The same, by the heights of the two.
pub fn make_node_in(part: &mut [i64], c: u32, tree: u8, side: bool, gap: u32, p: u32, q: u32) -> u32
    requires { c ≡ cap part.old }
    ensures { Joined (node_on side) tree side gap p q part.old part.new result }
{
    let hp = table::height_in(part, c, tree, p);
    let hq = table::height_in(part, c, tree, q);
    set_node(part, c, tree, side, gap, p, q, table::height_over(hp, hq))
}

pub fn make_node(part: &mut [i64], tree: u8, side: bool, gap: u32, p: u32, q: u32) -> u32
    ensures { Joined (node_on side) tree side gap p q part.old part.new result }
{
    let c = table::capacity(part);
    make_node_in(part, c, tree, side, gap, p, q)
}
