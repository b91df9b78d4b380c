// What the log book shows at a connector is what the connector's own record shows; no code.
#![tactic(auto)]
