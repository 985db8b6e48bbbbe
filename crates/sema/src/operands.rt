// The types of the operands that wait for their operator.
ghost use Rattle.std.specs.Prelude.{◌≡◌, ◌+◌, ◌<◌, ◌≤◌, [], length, IfOk, slice_index_or};
ghost use Rattle.std.specs.Option.{option_map};
ghost use Rattle.parser.specs.declared.value_type.ValueType.TheVariants.{Integer};
ghost use Rattle.base.specs.Limits.{most_nodes};
ghost use Rattle.sema.specs.Faults.{refusal_of};
ghost use Rattle.sema.specs.Types.{clash as clash_of, after};

use crate::fault::{CheckFault, unless};
use crate::rule::{Rule, agree, operator_type};
use base::limits::MOST_NODES;
use base::reserved::Reserved;
use parser::value_type::ValueType;
use std::alloc::{AllocError, Global};
use std::marker::Model;

// A stack of types: the type of the last operand is on top.
#[derive(Drop)]
pub(crate) struct Operands {
    types: Reserved<ValueType, MOST_NODES>,
}

// Contracts see the list of the types, with the last one first.
impl Model for Operands {
    ghost use Rattle.std.specs.Prelude.{List, reverse};
    ghost use Rattle.parser.specs.declared.value_type.ValueType.{ValueType};

    ghost Value = { List ValueType };

    ghost view = { λ s. reverse s.types };
}

impl Operands {
    pub(crate) fn new(heap: Global) -> Result<Operands, AllocError>
        ensures { IfOk result (λ s. s ≡ []) }
    {
        Ok(Operands {
            types: Reserved::new(heap)?,
        })
    }

    pub(crate) fn clear(&mut self)
        ensures { self.new ≡ [] }
    {
        self.types.clear();
    }

    // The type of the k-th operand, counted from the last. In the list of a program there is one wherever one is taken.
    pub(crate) fn operand(&self, k: usize) -> ValueType
        ensures { result ≡ slice_index_or self.now k Integer }
    {
        self.types.peek(k).unwrap_or(ValueType::Integer)
    }

    // The fault 11, where the operands break the rule.
    pub(crate) fn clash(&self, rule: Rule) -> Option<CheckFault>
        ensures { option_map refusal_of result ≡ clash_of rule self.now }
    {
        let top = self.operand(0);
        match rule {
            Rule::Joins(operator, offset) => unless(
                agree(operator, self.operand(1), top),
                CheckFault::Mistyped(offset),
            ),
            Rule::Keeps(want, offset) | Rule::Takes(want, offset) => unless(
                top == want,
                CheckFault::Mistyped(offset),
            ),
            Rule::Picks(_, offset) => unless(
                top == ValueType::Integer,
                CheckFault::Mistyped(offset),
            ),
            Rule::Starts(variable, offset) => unless(
                variable == ValueType::Integer && top == ValueType::Integer,
                CheckFault::Mistyped(offset),
            ),
            _ => None,
        }
    }

    // Changes the operands as a node of this rule does.
    pub(crate) fn follow(&mut self, rule: Rule)
        requires { length self.old < most_nodes }
        ensures tops { self.new ≡ after rule self.old }
        ensures len { length self.new ≤ length self.old + 1 }
    {
        match rule {
            Rule::Idle | Rule::Keeps(_, _) => {}
            Rule::Gives(value_type) => {
                let _ = self.types.push(value_type);
            }
            Rule::Joins(operator, _) => {
                let left = self.operand(1);
                let _ = self.types.pop();
                let _ = self.types.pop();
                let _ = self.types.push(operator_type(operator, left));
            }
            Rule::Takes(_, _) | Rule::Starts(_, _) => {
                let _ = self.types.pop();
            }
            Rule::Picks(value_type, _) | Rule::Turns(value_type) => {
                let _ = self.types.pop();
                let _ = self.types.push(value_type);
            }
        }
    }
}
