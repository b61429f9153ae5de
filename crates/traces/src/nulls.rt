// Which expression was NULL where a check failed: what is followed at its position, or what is converted there to a pointer that is never NULL.

use crate::extents::{end_of, end_of_name, end_of_suffixed};
use crate::locals::{Local, Sort};
use cyc_tree::{
    BlockItem, Clause, Declaration, Expression, Function, Initializer, Item, Link, Made, Member,
    Name, Prefix, Sign, Statement, Suffix, TypeName,
};

/// The search for what may be NULL at an offset of a text: what `*` follows there, and what is followed there otherwise, or converted, with whether it may be
/// checked. Each by where it begins and ends.
#[derive(Clone, Copy)]
pub struct Search<'p> {
    pub text: &'p [u8],
    pub items: &'p [Item],
    pub locals: &'p [Local<'p>],
    pub at: u32,
    pub followed: Option<(u32, u32)>,
    pub other: Option<(u32, u32)>,
    pub may_be_other: bool,
}

/// Whether a text may have a type of pointers that are never NULL.
fn has_never_null(text: &[u8]) -> bool {
    text.split(|byte| *byte == b'@')
        .skip(1)
        .any(|rest| !rest.starts_with(b"tagged"))
}

/// Whether values of a type are never NULL, and others are checked when they are converted to it.
fn is_never_null(of: &TypeName) -> bool {
    match of.pointers.last() {
        Some(pointer) => matches!(pointer.sign, Sign::NotNull(_)),
        None => false,
    }
}

/// Whether a name is spelled so.
fn is_named(name: &Name, text: &[u8]) -> bool {
    let own: &[u8] = &name.text;
    own == text
}

/// What is given to the function or the struct of a name.
fn members_of<'p>(items: &'p [Item], name: &[u8]) -> &'p [Member] {
    for item in items {
        match item {
            Item::Function(function) if is_named(&function.name, name) =>
                return &function.parameters,
            Item::Struct(structure) if is_named(&structure.tag, name) => return &structure.members,
            _ => {}
        }
    }
    &[]
}

/// Whether an item has a member of this name that is never NULL.
fn has_checked(item: &Item, name: &[u8]) -> bool {
    match item {
        Item::Struct(structure) | Item::Union(structure) => {
            let members: &[Member] = &structure.members;
            members.iter().any(|member| is_named(&member.name, name) && is_never_null(&member.of))
        }
        _ => false,
    }
}

/// Whether an item is a global of this name that is never NULL.
fn is_checked(item: &Item, name: &[u8]) -> bool {
    match item {
        Item::Global(global) => is_named(&global.name, name) && is_never_null(&global.of),
        _ => false,
    }
}

impl<'p> Search<'p> {
    /// Takes in what `*` at an offset follows.
    fn follow(&mut self, at: u32, operand: &Expression) {
        if at == self.at {
            let begin = operand.place();
            self.followed = end_of(self.text, operand).map(|end| (begin, end));
        }
    }

    /// Takes in what a suffix at an offset follows: a primary with suffixes.
    fn reach(&mut self, at: u32, first: &Expression, suffixes: &[Suffix]) {
        if at == self.at {
            let begin = first.place();
            let end = end_of_suffixed(self.text, first, suffixes);
            self.other = end.map(|end| (begin, end));
            self.may_be_other = true;
        }
    }

    /// Takes in what each suffix of a primary follows.
    fn reach_all(&mut self, first: &Expression, suffixes: &[Suffix]) {
        for (number, suffix) in suffixes.iter().enumerate() {
            let before = suffixes.get(..number).unwrap_or(&[]);
            match suffix {
                Suffix::Index(index) => self.reach(index.place(), first, before),
                Suffix::Arrow(name) => self.reach(name.at, first, before),
                Suffix::Dot(_) => {}
            }
        }
    }

    /// Takes in a value that is converted, perhaps to what is never NULL.
    fn convert(&mut self, value: &Expression, may_be_checked: bool) {
        let begin = value.place();
        if begin == self.at {
            self.other = end_of(self.text, value).map(|end| (begin, end));
            self.may_be_other = may_be_checked && has_never_null(self.text);
        }
    }

    /// Whether what is assigned to a variable may be checked.
    fn may_check(self, name: &[u8]) -> bool {
        let is_pointer = |local: &Local<'_>| local.name == name
            && matches!(local.sort, Sort::Address);
        self.locals.iter().any(is_pointer) || self.items.iter().any(|item| is_checked(item, name))
    }

    /// Whether what is assigned to a place may be checked.
    fn may_check_at(self, place: &Expression) -> bool {
        match place {
            Expression::Variable(name) => self.may_check(&name.text),
            Expression::Suffixed(_, suffixes) => match suffixes.last() {
                Some(Suffix::Dot(name) | Suffix::Arrow(name)) => {
                    self.items.iter().any(|item| has_checked(item, &name.text))
                }
                _ => true,
            },
            _ => true,
        }
    }
}

/// Goes over an expression.
#[cycle(search)]
fn pass(search: &mut Search<'_>, expression: &Expression) {
    match expression {
        Expression::Call(name, arguments) => pass_arguments(search, name, arguments),
        Expression::MakeUnion(_, _, value) => {
            search.convert(value, true);
            pass(search, value);
        }
        Expression::Prefixed(at, Prefix::Dereference, operand) => {
            search.follow(*at, operand);
            pass(search, operand);
        }
        Expression::Grouped(_, inner)
        | Expression::NumElts(_, inner)
        | Expression::Prefixed(_, _, inner) => pass(search, inner),
        Expression::Suffixed(first, suffixes) => {
            pass(search, first);
            pass_suffixes(search, suffixes);
            search.reach_all(first, suffixes);
        }
        Expression::New(_, made) => pass_made(search, made),
        Expression::NewIn(_, handle, made) => {
            pass(search, handle);
            pass_made(search, made);
        }
        Expression::Chain(first, links) => {
            pass(search, first);
            pass_links(search, links);
        }
        Expression::AllOf(first, others) | Expression::AnyOf(first, others) => {
            pass(search, first);
            pass_all(search, others);
        }
        Expression::Assign(place, value) => {
            let may_be_checked = search.may_check_at(place);
            search.convert(value, may_be_checked);
            pass(search, place);
            pass(search, value);
        }
        _ => {}
    }
}

/// Goes over expressions.
#[cycle(search)]
fn pass_all(search: &mut Search<'_>, expressions: &[Expression]) {
    'each: for expression in expressions {
        pass(search, expression);
    }
}

/// Goes over the arguments of a function, or of a struct that is made.
#[cycle(search)]
fn pass_arguments(search: &mut Search<'_>, name: &Name, arguments: &[Expression]) {
    let members = members_of(search.items, &name.text);
    'each: for (number, argument) in arguments.iter().enumerate() {
        let may_be_checked = match members.get(number) {
            Some(member) => is_never_null(&member.of),
            None => false,
        };
        search.convert(argument, may_be_checked);
        pass(search, argument);
    }
}

/// Goes over the other operands of one level.
#[cycle(search)]
fn pass_links(search: &mut Search<'_>, links: &[Link]) {
    'each: for link in links {
        pass(search, &link.operand);
    }
}

/// Goes over suffixes.
#[cycle(search)]
fn pass_suffixes(search: &mut Search<'_>, suffixes: &[Suffix]) {
    'each: for suffix in suffixes {
        match suffix {
            Suffix::Index(index) => pass(search, index),
            Suffix::Dot(_) | Suffix::Arrow(_) => {}
        }
    }
}

/// Goes over what is made.
#[cycle(search)]
fn pass_made(search: &mut Search<'_>, made: &Made) {
    match made {
        Made::One(value) => pass(search, value),
        Made::Array(_, count, element) => {
            pass(search, count);
            pass(search, element);
        }
    }
}

/// Goes over a declaration.
fn pass_declaration(search: &mut Search<'_>, declaration: &Declaration) {
    match declaration {
        Declaration::Local(of, _, Initializer::Value(value)) => {
            search.convert(value, is_never_null(of));
            pass(search, value);
        }
        Declaration::Alias(_, _, _, _, pointer) if pointer.at == search.at => {
            search.other = Some((pointer.at, end_of_name(pointer)));
        }
        _ => {}
    }
}

/// Goes over a statement without others in it.
fn pass_plain(search: &mut Search<'_>, statement: &Statement, is_checked: bool) {
    match statement {
        Statement::Run(value) => pass(search, value),
        Statement::Return(_, Some(value)) => {
            search.convert(value, is_checked);
            pass(search, value);
        }
        Statement::Exchange(left, right) => {
            pass(search, left);
            pass(search, right);
        }
        _ => {}
    }
}

/// Goes over a statement of a function, whose result may be never NULL.
#[cycle(search_in)]
fn pass_statement(search: &mut Search<'_>, statement: &Statement, is_checked: bool) {
    match statement {
        Statement::Block(_, items) => pass_items(search, items, is_checked),
        Statement::If(_, condition, body) | Statement::While(_, condition, body) => {
            pass(search, condition);
            pass_statement(search, body, is_checked);
        }
        Statement::IfElse(_, condition, body, otherwise) => {
            pass(search, condition);
            pass_statement(search, body, is_checked);
            pass_statement(search, otherwise, is_checked);
        }
        Statement::Switch(_, place, clauses) => {
            pass(search, place);
            pass_clauses(search, clauses, is_checked);
        }
        other => pass_plain(search, other, is_checked),
    }
}

/// Goes over the items of a block.
#[cycle(search_in)]
fn pass_items(search: &mut Search<'_>, items: &[BlockItem], is_checked: bool) {
    'each: for item in items {
        match item {
            BlockItem::Declare(declaration) => pass_declaration(search, declaration),
            BlockItem::Execute(statement) => pass_statement(search, statement, is_checked),
        }
    }
}

/// Goes over the clauses of a `switch`.
#[cycle(search_in)]
fn pass_clauses(search: &mut Search<'_>, clauses: &[Clause], is_checked: bool) {
    'each: for clause in clauses {
        pass_items(search, &clause.body, is_checked);
    }
}

impl Search<'_> {
    /// Goes over a function.
    pub fn go_over(&mut self, function: &Function) {
        pass_items(self, &function.body, is_never_null(&function.result));
    }

    /// Where what was NULL begins and ends, of the check with this number of those at the offset, and how many these are; none where that can't be told. What
    /// `*` follows is checked first.
    pub fn null(self, number: usize, checks: usize) -> Option<(u32, u32)> {
        match (self.followed, self.other) {
            (Some(_), Some(_)) if checks > 1 && number > 0 => self.other,
            (Some(_), Some(_)) if checks > 1 || !self.may_be_other => self.followed,
            (Some(_), Some(_)) => None,
            (Some(_), None) => self.followed,
            (None, _) => self.other,
        }
    }
}
