// Laws only: the reason of a run's refusal 14 is the leave question's answer about the table that the run wrote (document 02, T-02).
#![tactic(auto)]
