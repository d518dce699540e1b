// Worked calls, computed from the definitions. Nothing runs here: the contracts are the equations.
ghost use Rattle.std.specs.Prelude.{◌≡◌, [], ◌∷◌, true, false, Ok, codes};
ghost use Rattle.qc_play.specs.declared.effect.Effect.TheVariants.{Change, Retract};
ghost use Rattle.qc_play.specs.Play.{ran, failed_at};
ghost use Rattle.qc_play.specs.Worked.{a_record, bolts, drawer, letters, over, played, stock};

/// A step that `when` skips counts in the numbers of those behind it.
pub fn a_skipped_step_counts()
    ensures moved { played (codes "when 1 = 2\nfail\nmove stock[\"bolt\"] sold[\"bolt\"] 10\n") [] (over (stock 10 0))
        ≡ Ok (ran (over (stock 0 10))) }
    ensures too_many { played (codes "when 1 = 2\nfail\nmove stock[\"bolt\"] sold[\"bolt\"] 11\n") []
        (over (stock 10 0)) ≡ Ok (failed_at 3) }
{}

/// A retracted change stays among the records, forgotten, and the next one's number goes on.
pub fn a_retract_takes_back()
    ensures till { played (codes "out till[\"drawer\"] += qty\nretract till\nout till[\"drawer\"] += 1\n") (bolts 4)
        (over (drawer 100)) ≡ Ok (ran (record {
          view = drawer 101;
          records = a_record (codes "till") (codes "drawer") 1 100 104 true
              ∷ a_record (codes "till") (codes "drawer") 2 100 101 false ∷ [];
          forced = false;
          effects = Change (codes "till") (codes "drawer") 100 104 ∷ Retract (codes "till")
              ∷ Change (codes "till") (codes "drawer") 100 101 ∷ [];
        })) }
    ensures post { played (codes "out post[\"letters\"] += 1\nretract post\nretract post\n") [] (over (letters 0))
        ≡ Ok (failed_at 3) }
{}

/// `abort` forces the attempt, and changes nothing else.
pub fn abort_forces()
    ensures { played (codes "abort") [] (over (stock 10 0)) ≡ Ok (ran (record (over (stock 10 0)) { forced = true })) }
{}

/// A test sees what the calls before it left.
pub fn a_test_sees_the_calls_before()
    ensures enough { played (codes "need stock[item] >= qty\nsub stock[item] qty\n") (bolts 4) (over (stock 10 0))
        ≡ Ok (ran (over (stock 6 0))) }
    ensures too_few { played (codes "need stock[item] >= qty\nsub stock[item] qty\n") (bolts 7) (over (stock 6 0))
        ≡ Ok (failed_at 1) }
{}
