#![tactic(auto)]

// Sources as trees: the definitions are in specs/, for the grammar, the stages after it and the meaning of a source.
