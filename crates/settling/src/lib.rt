// The chunk list item by item, in the order in which a run comes to them, with the laws that it is the list of the definition. No code.
#![tactic(auto)]
