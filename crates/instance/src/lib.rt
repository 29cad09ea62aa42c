// What a group and a row of an accepted file mean: the node above a group, its written limit, the two nodes of a row and its weight.
//
// Card group g is node g, and shop group h is node cards + h. Above the tops of a side stands a node that is no group, its root.
#![tactic(auto)]

ghost use Rattle.std.specs.Prelude.{◌≡◌, ◌+◌, ◌*◌, ◌^◌, min, ◌≤◌, ◌<◌};
ghost use Rattle.theory.specs.Bounds.{max_groups, max_rows};
ghost use Rattle.claimfile.specs.File.{second_terms};
ghost use Rattle.claimfile.specs.Day as day;
ghost use Rattle.claimfile.specs.Sound.{Sound};
ghost use Rattle.instance.specs.Meaning.{heaviest, nodes};

use claimfile::{Claim, Group, Layout, group_of};

pub const CARD_SIDE: usize = 0;

pub const SHOP_SIDE: usize = 1;

// The node above group `own` of a section whose group 0 is node `first`: its parent, where that is a smaller group, else the root.
pub fn above(own: usize, parent: usize, first: usize, root: usize) -> usize
    requires { (first + own ≤ 2 * max_groups) × (root < 65536) }
    ensures { (result ≡ day.above own parent first root) × (result < 65536) }
{
    if parent < own {
        return first + parent;
    }
    root
}

// The group at a node: the node above it, and the limit in its record.
pub fn node_at(file: &[u8], layout: Layout, v: usize) -> Group
    requires { (Sound file.now layout) × (v < day.groups_of layout) }
    ensures { (result.parent ≡ day.parent_of file.now layout v) × (result.limit ≡ day.written_of file.now layout v) × (result.parent < nodes) × (result.limit < 65536) }
{
    let cards = layout.cards;
    let groups = cards + layout.shops;
    if v < cards {
        let card = group_of(file, layout, CARD_SIDE, v);
        return Group {
            parent: above(v, card.parent, 0, groups),
            limit: card.limit,
        };
    }
    let own = v - cards;
    let shop = group_of(file, layout, SHOP_SIDE, own);
    Group {
        parent: above(own, shop.parent, cards, groups + 1),
        limit: shop.limit,
    }
}

// The limit of a group under one with the limit `most`: the written one, or `most` where that is less.
pub fn lesser(written: usize, most: usize) -> usize
    ensures { result ≡ min written most }
{
    written.min(most)
}

// Where a claim hangs on the card side, with `root` over its tops: at the group that it names, or, where it is earned, above that group.
// Kinds 1 to 3 count as earned.
pub fn card_node(file: &[u8], layout: Layout, claim: Claim, root: usize) -> usize
    requires { (Sound file.now layout) × (claim.card < layout.cards) × (root < 65536) }
    ensures { (result ≡ day.card_under file.now layout root claim) × (result < 65536) }
{
    if claim.kind == 0 {
        return claim.card;
    }
    let group = group_of(file, layout, CARD_SIDE, claim.card);
    above(claim.card, group.parent, 0, root)
}

// Where a claim hangs on the shop side.
pub fn shop_node(layout: Layout, claim: Claim) -> usize
    requires { (layout.cards ≤ max_groups) × (claim.shop < layout.shops) × (layout.shops ≤ max_groups) }
    ensures { result ≡ layout.cards + claim.shop }
{
    layout.cards + claim.shop
}

// The weight of a row of a kind, where there are so many rows: the rows of the kinds below it weigh less together.
pub fn power(rows: usize, kind: u8) -> usize
    requires { (rows ≤ max_rows) × (kind < second_terms) }
    ensures { (result ≡ (rows + 1) ^ kind) × (result ≤ heaviest) }
{
    (rows + 1).pow(u32::from(kind))
}
