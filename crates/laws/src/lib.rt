// Laws of lists, counts and searches, over any element type and any test. Nothing here is about the unit.
#![tactic(auto)]
