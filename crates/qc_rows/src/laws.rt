// What holds of tables whatever views are settled. Nothing runs here: the contract is the laws.
ghost use Rattle.qc_rows.specs.Laws.{KeepsCanonical, KeepsNames, OpensCanonical, SettlesAmounts, SettlesTotals};

/// A view in which no row comes twice gives each inside row of a table the amount that it has for it; all others keep
/// theirs. A table's total grows by these amounts, less what the rows had. Tables open with their rows in byte order of
/// keys and none with 0, and stay so; the tables stay the same ones (docs/RULES.md, "Rows").
pub fn views_settle_their_rows()
    ensures amounts { SettlesAmounts }
    ensures totals { SettlesTotals }
    ensures opened { OpensCanonical }
    ensures canonical { KeepsCanonical }
    ensures names { KeepsNames }
{}
