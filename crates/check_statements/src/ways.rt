// How statements may be left, and which ends are reached.

ghost use Rattle.std.specs.Prelude.{◌≡◌, ◌&&◌, false, map, true};
ghost use Rattle.cyc_tree.specs.View.{clause_tree, clauses_of, item_tree, items_of, statement_tree};
ghost use Rattle.source_typing.specs.Ways.{breaks_of, either_way, then_ways, ways, ways_of, ways_of_items};
ghost use Rattle.check_statements.specs.Leaving.{item_falls, ways_in};

use cyc_tree::{BlockItem, Clause, Statement};

/// How a statement may be left whose start is reached.
#[derive(Clone, Copy)]
pub(crate) struct Ways {
    /// Whether its end is reached.
    falls: bool,
    /// Whether a `break` leaves it.
    breaks: bool,
}

impl Ways {
    /// Those of one statement after the other.
    fn then(self, next: Ways) -> Ways
        ensures { ways_in result ≡ then_ways (ways_in self) (ways_in next) }
    {
        Ways {
            falls: self.falls && next.falls,
            breaks: self.breaks || (self.falls && next.breaks),
        }
    }

    /// Those of one statement or the other.
    fn or(self, other: Ways) -> Ways
        ensures { ways_in result ≡ either_way (ways_in self) (ways_in other) }
    {
        Ways {
            falls: self.falls || other.falls,
            breaks: self.breaks || other.breaks,
        }
    }
}

/// The end is reached, and no `break` leaves it.
fn falling() -> Ways
    ensures { ways_in result ≡ ways true false }
{
    Ways {
        falls: true,
        breaks: false,
    }
}

/// How a statement may be left.
#[cycle(ways)]
fn statement_ways(statement: &Statement) -> Ways
    ensures { ways_in result ≡ ways_of (statement_tree statement.now) }
{
    match statement {
        Statement::Block(_, items) => items_ways(items),
        Statement::If(_, _, body) => statement_ways(body).or(falling()),
        Statement::IfElse(_, _, body, otherwise) => {
            let first = statement_ways(body);
            first.or(statement_ways(otherwise))
        }
        Statement::Switch(_, _, clauses) => Ways {
            falls: clauses_break(clauses),
            breaks: false,
        },
        Statement::Break(_) => Ways {
            falls: false,
            breaks: true,
        },
        Statement::Continue(_) | Statement::Return(_, _) => Ways {
            falls: false,
            breaks: false,
        },
        _ => falling(),
    }
}

/// How the items of a block may be left.
#[cycle(ways)]
fn items_ways(items: &[BlockItem]) -> Ways
    ensures { ways_in result ≡ ways_of_items (items_of (map item_tree items.now)) }
{
    let mut so_far = falling();
    'each: for item in items {
        let next = match item {
            BlockItem::Declare(_) => falling(),
            BlockItem::Execute(statement) => statement_ways(statement),
        };
        so_far = so_far.then(next);
    }
    so_far
}

/// Whether a `break` leaves one of the clauses of a `switch`.
#[cycle(ways)]
fn clauses_break(clauses: &[Clause]) -> bool
    ensures { result ≡ breaks_of (clauses_of (map clause_tree clauses.now)) }
{
    let mut any = false;
    'each: for clause in clauses {
        any = any || items_ways(&clause.body).breaks;
    }
    any
}

/// Whether the end of an item of a block is reached, by whether its start is.
pub(crate) fn reached_after(reached: bool, item: &BlockItem) -> bool
    ensures { result ≡ (reached && item_falls (item_tree item.now)) }
{
    reached && item_falls(item)
}

/// Whether the end of an item of a block is reached, where its start is.
fn item_falls(item: &BlockItem) -> bool
    ensures { result ≡ item_falls (item_tree item.now) }
{
    match item {
        BlockItem::Declare(_) => true,
        BlockItem::Execute(statement) => statement_ways(statement).falls,
    }
}

/// Whether the end of a block is reached, where its start is.
pub fn items_fall(items: &[BlockItem]) -> bool
    ensures { result ≡ (ways_of_items (items_of (map item_tree items.now))).falls }
{
    items_ways(items).falls
}
