//! The laws of accounts. The functions do nothing: their clauses are the laws.

ghost use Rattle.sw_account_laws.specs.Laws.{AccountsAreSound, AccountsBegin, AccountsJoin, AccountsStay, KeepsAccounts, ListingsOfAccountsAreExact};

/// A machine at which nothing stands is sound with the account of nothing.
pub fn accounts_begin()
    ensures { AccountsBegin }
{}

/// Each run takes an account of its start to one of its end, by the writes that its steps made known.
pub fn accounts_go_on()
    ensures { KeepsAccounts }
{}

/// Two runs, one after the other, take an account to where the second takes that of the first.
pub fn accounts_join()
    ensures { AccountsJoin }
{}

/// A machine that is sound with its account is so after an honest, plain and rooted run, with the account that the run took it to.
pub fn accounts_are_sound()
    ensures { AccountsAreSound }
{}

/// And so is another machine whose nodes hold the same.
pub fn accounts_stay()
    ensures { AccountsStay }
{}

/// After such a run a listing across shards of a container of which no record waits is that of its live objects, by the writes of the account and the run.
pub fn listings_of_accounts_are_exact()
    ensures { ListingsOfAccountsAreExact }
{}
