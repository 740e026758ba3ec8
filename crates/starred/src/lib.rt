// No code: the starred cases of document 01, "Points and tables worked through", as one list under one theorem.
#![tactic(auto)]
