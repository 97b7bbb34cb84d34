// Laws only: what every entry point promises of its refusals and of the room that is lent to it (document 01, "The numbers a crew may see").
#![tactic(auto)]
