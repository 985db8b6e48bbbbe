// The grammar as trees, with the tokens with which each tree is written. The laws say that the reader reads exactly
// these, and where it refuses.
#![tactic(auto)]

ghost use Rattle.grammar.specs.Theorems.{ReadsTheGrammar, ListsATree, OneTree, ToldApart};
ghost use Rattle.grammar.specs.Prefixes.{RefusedWhereNoneBegins, RefusedWhereTooDeep, RefusedOnlySo};

/// A law: the reader reads tokens to a list exactly where they are written from a tree within 32 levels, and the list is
/// that of the tree.
pub fn grammar_stands()
    ensures { ReadsTheGrammar }
{}

/// A law: every list that a source is read to is that of a tree.
pub fn lists_a_tree()
    ensures { ListsATree }
{}

/// A law: no two trees have the same tokens.
pub fn one_tree()
    ensures { OneTree }
{}

/// A law: the reader takes two symbols, two reserved words or two strengths for the same exactly where they are the same.
pub fn tokens_are_told_apart()
    ensures { ToldApart }
{}

/// A law: refusal 5 stands at the first token with which no program begins, or at the end of tokens that begin a
/// program and are not one.
pub fn refused_where_none_begins()
    ensures { RefusedWhereNoneBegins }
{}

/// A law: refusal 6 stands at the token that opens level 33.
pub fn refused_where_too_deep()
    ensures { RefusedWhereTooDeep }
{}

/// A law: tokens are refused with 5 or 6 only.
pub fn refused_only_so()
    ensures { RefusedOnlySo }
{}
