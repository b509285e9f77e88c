// The law of pools: a contract states it, and there is nothing else to it.
ghost use Rattle.pools.specs.Pools.{Holds};
ghost use Rattle.pools.specs.declared.pool.Pool.{Pool};

// Every pool that exists holds 256 permutations and their inverses.
pub fn pools_hold_permutations()
    ensures { (p : Pool) → Holds p }
{}
