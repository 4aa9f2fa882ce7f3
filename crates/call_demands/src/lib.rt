// Demands over the numbers that the judging calls return and tell, and the order in which each call gives its refusals; there is no code.
