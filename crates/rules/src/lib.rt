// What the desk does, as definitions over an abstract store: specs/ follows the contract with the user, heading by heading. No code.
#![tactic(auto)]
