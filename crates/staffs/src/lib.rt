#![tactic(auto)]

// "Gauges": what follows for gauges whose records are known stands in specs/.
