// The walk over the statements of a function.

use crate::assigned::warn_of_assignment;
use crate::expressions::{look_at, pass_value};
use crate::leaks::{begins_as_owner, is_owner, warn_of_leak};
use crate::names::{Named, Sort};
use crate::reached::{End, end_of_loop, end_of_switch, warn_of_unreachable};
use crate::walk::Walk;
use cyc_tree::{
    Base, BlockItem, Clause, Declaration, Expression, Function, Initializer, Member, Name, Pattern,
    Statement, TypeName,
};

/// Declares a local that has a type.
fn declare_typed<'p>(walk: &mut Walk<'p>, of: &'p TypeName, name: &'p Name, owns: bool) {
    walk.declare_local(Named {
        owns,
        ..Named::new(name, Sort::Variable, Some(of))
    });
}

/// Goes over the declaration of a local with a type.
fn pass_local<'p>(
    walk: &mut Walk<'p>,
    of: &'p TypeName,
    name: &'p Name,
    initializer: &'p Initializer,
) {
    match initializer {
        Initializer::None => declare_typed(walk, of, name, false),
        Initializer::Array(count) => walk.declare_local(Named {
            count: Some(*count),
            ..Named::new(name, Sort::Variable, Some(of))
        }),
        Initializer::Value(value) => {
            pass_value(walk, value);
            declare_typed(walk, of, name, begins_as_owner(value));
        }
    }
}

/// Goes over a declaration.
fn pass_declaration<'p>(walk: &mut Walk<'p>, declaration: &'p Declaration) {
    match declaration {
        Declaration::Local(of, name, initializer) => pass_local(walk, of, name, initializer),
        Declaration::Region(_, _, name) => {
            walk.declare_local(Named::new(name, Sort::Variable, None));
        }
        Declaration::NewKey(_, _, name) => walk.declare_local(Named {
            owns: true,
            ..Named::new(name, Sort::Variable, None)
        }),
        Declaration::Open(_, _, name, key) => {
            walk.names.mention(&key.text, false);
            walk.declare_local(Named::new(name, Sort::Required, None));
        }
        Declaration::Alias(_, _, of, name, pointer) => {
            walk.names.mention(&pointer.text, false);
            declare_typed(walk, of, name, false);
        }
    }
}

/// Goes over a condition.
fn pass_condition<'p>(walk: &mut Walk<'p>, condition: &'p Expression) {
    warn_of_assignment(walk, condition);
    look_at(walk, condition);
}

/// Goes over what is returned.
fn pass_result<'p>(walk: &mut Walk<'p>, value: &'p Option<Expression>) {
    match value {
        Some(value) => pass_value(walk, value),
        None => {}
    }
}

/// Goes over a statement without others in it, and says whether a run comes to its end.
fn pass_plain<'p>(walk: &mut Walk<'p>, statement: &'p Statement) -> End {
    match statement {
        Statement::Run(value) => {
            warn_of_leak(walk, value);
            pass_value(walk, value);
            End::Reached
        }
        Statement::Exchange(left, right) => {
            pass_value(walk, left);
            pass_value(walk, right);
            End::Reached
        }
        Statement::FreeUnique(_, name) | Statement::FreeKey(_, name) => {
            walk.names.mention(&name.text, true);
            End::Reached
        }
        Statement::Break(_) => {
            walk.has_break = true;
            End::Left
        }
        Statement::Continue(_) => End::Left,
        Statement::Return(_, value) => {
            pass_result(walk, value);
            End::Left
        }
        _ => End::Reached,
    }
}

/// Goes over a statement that is run or isn't, and says whether a run comes to its end.
#[cycle(statements)]
fn pass_branch<'p>(walk: &mut Walk<'p>, statement: &'p Statement) -> End {
    let outer = walk.names.enter_branch();
    let end = pass_statement(walk, statement);
    walk.names.leave_branch(outer);
    end
}

/// Goes over a statement, and says whether a run comes to its end.
#[cycle(statements)]
fn pass_statement<'p>(walk: &mut Walk<'p>, statement: &'p Statement) -> End {
    match statement {
        Statement::Block(_, items) => pass_block(walk, items),
        Statement::If(_, condition, body) => {
            pass_condition(walk, condition);
            let _end = pass_branch(walk, body);
            End::Reached
        }
        Statement::IfElse(_, condition, body, otherwise) => {
            pass_condition(walk, condition);
            let end = pass_branch(walk, body);
            end.or(pass_branch(walk, otherwise))
        }
        Statement::While(_, condition, body) => {
            pass_condition(walk, condition);
            let outer = walk.enter();
            let _end = pass_branch(walk, body);
            let has_break = walk.leave(outer);
            end_of_loop(condition, has_break)
        }
        Statement::Switch(_, place, clauses) => {
            look_at(walk, place);
            let outer = walk.enter();
            pass_clauses(walk, clauses);
            let has_break = walk.leave(outer);
            end_of_switch(has_break)
        }
        other => pass_plain(walk, other),
    }
}

/// Goes over a block.
#[cycle(statements)]
fn pass_block<'p>(walk: &mut Walk<'p>, items: &'p [BlockItem]) -> End {
    let depth = walk.names.depth();
    let end = pass_items(walk, items);
    walk.names.leave(depth);
    end
}

/// Goes over the items of a block.
#[cycle(statements)]
fn pass_items<'p>(walk: &mut Walk<'p>, items: &'p [BlockItem]) -> End {
    let mut end = End::Reached;
    'each: for item in items {
        end = warn_of_unreachable(walk, end, item);
        match item {
            BlockItem::Declare(declaration) => pass_declaration(walk, declaration),
            BlockItem::Execute(statement) => end = end.then(pass_statement(walk, statement)),
        }
    }
    end
}

/// Goes over the clauses of a `switch`, each a block with its name.
#[cycle(statements)]
fn pass_clauses<'p>(walk: &mut Walk<'p>, clauses: &'p [Clause]) {
    'each: for clause in clauses {
        let depth = walk.names.depth();
        let outer = walk.names.enter_branch();
        pass_pattern(walk, &clause.pattern);
        let _end = pass_items(walk, &clause.body);
        walk.names.leave_branch(outer);
        walk.names.leave(depth);
    }
}

/// Goes over the pattern of a clause.
fn pass_pattern<'p>(walk: &mut Walk<'p>, pattern: &'p Pattern) {
    match pattern {
        Pattern::Case(member, name) => {
            walk.mention_member(&member.text);
            walk.declare_local(Named::new(name, Sort::Required, None));
        }
        Pattern::Default => {}
    }
}

/// What the name of a parameter of a type is of. That of a handle may be there for its region's name alone.
fn sort_of(of: &TypeName) -> Sort {
    match of.base {
        Base::Handle(_) if of.pointers.is_empty() => Sort::Required,
        _ => Sort::Variable,
    }
}

/// Declares parameters.
fn declare_parameters<'p>(walk: &mut Walk<'p>, parameters: &'p [Member]) {
    for parameter in parameters {
        let of = &parameter.of;
        walk.declare_local(Named {
            owns: is_owner(of),
            ..Named::new(&parameter.name, sort_of(of), Some(of))
        });
    }
}

/// Goes over a function.
pub(crate) fn pass_function<'p>(walk: &mut Walk<'p>, function: &'p Function) {
    declare_parameters(walk, &function.parameters);
    let _end = pass_items(walk, &function.body);
    walk.names.leave(0);
}
