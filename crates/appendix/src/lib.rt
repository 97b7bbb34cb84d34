// Laws only: the two lasting facts of the tender appendix, over bytes, with worked runs and what shows each premise to be needed (document 02, T-07).
#![tactic(auto)]
