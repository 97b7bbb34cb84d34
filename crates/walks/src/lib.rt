// Laws only: the loop of a proof by hand, and a list that such a loop fills.
#![tactic(auto)]
