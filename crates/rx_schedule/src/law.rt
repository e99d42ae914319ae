ghost use Rattle.std.specs.Prelude.{◌≡◌, ◌≤◌, ℕ, Bool, List, ◌∷◌, ◌++◌, None, Some, length, map, suc, false, true};
ghost use Rattle.rx_fields.specs.Numbered.{LotParts};
ghost use Rattle.rx_d0_values.specs.declared.transmission.Transmission.{Transmission};
ghost use Rattle.rx_ledger.specs.Fold.{fold_ledger};
ghost use Rattle.rx_ledger.specs.Ledger.{Ledger};
ghost use Rattle.rx_ledger.specs.Plan.{Plan};
ghost use Rattle.rx_books_family.specs.Books.{Book, IsInOrder, book};
ghost use Rattle.rx_books_parcel.specs.Footprints.{FootprintParts, cut, fits, names, sub};
ghost use Rattle.rx_schedule.specs.Footprints.{footprint_at, footprints_of, record_at};
ghost use Rattle.rx_schedule.specs.Jobs.{IsHeld, job, ledger_before, reply_at};
ghost use Rattle.rx_schedule.specs.Machine.{GoesByNumber, GoesInWaves, HasEachOnce, IsComplete, IsLegal, IsNumbering, IsPlace};
ghost use Rattle.rx_schedule.specs.Machine.{KeepsFileOrder, Was, Wave, one_by_one, replay, wave_by_wave};
ghost use Rattle.rx_schedule.specs.declared.event.Event.{Event};
ghost use Rattle.rx_schedule.specs.declared.event.Event.TheVariants as event;
ghost use Rattle.rx_schedule.specs.Shards.{AreApart, AreJoined, IsGrouping, IsUntouched};
ghost use Rattle.rx_schedule.specs.Shards.{books_of_shard, is_of, ledger_of, places_of, replies_of};
ghost use Rattle.rx_schedule.specs.Waves.{AreWaves, number_in};

/// At each point of the fold, before a record and after the last, the row under a fill key, if there is one, is of the
/// opening row's family or of the family of an earlier billing with that key; so the footprint of a record fits it there.
pub fn law_of_holder()
    ensures row { (lot : LotParts) → (plan : Plan) → (L : Ledger) → (records : List Transmission) → (place : ℕ)
        → 1 ≤ place → place ≤ suc (length records) → IsHeld lot plan L records place }
    ensures fits { (lot : LotParts) → (plan : Plan) → (L : Ledger) → (records : List Transmission) → (place : ℕ)
        → 1 ≤ place → place ≤ length records
        → fits (footprint_at L records place) (record_at records place) (ledger_before lot plan L records place) ≡ true }
{}

/// Every interleaving: a complete legal event list ends with the fold's books and replies, and after each start of a legal
/// list the replies noted are the fold's. A record that is taken finds its books as the fold has them before it, and where
/// it is given it leaves them as the fold has them after it.
pub fn law_of_core()
    ensures books { (lot : LotParts) → (plan : Plan) → (L : Ledger) → (records : List Transmission) → IsInOrder L
        → (past : List Event) → IsLegal (job lot plan L records) past → IsComplete (job lot plan L records) past
        → (b : Book) → (replay (job lot plan L records) past).books b ≡ book b (fold_ledger lot plan 1 records L) }
    ensures replies { (lot : LotParts) → (plan : Plan) → (L : Ledger) → (records : List Transmission) → IsInOrder L
        → (past : List Event) → IsLegal (job lot plan L records) past → IsComplete (job lot plan L records) past
        → (place : ℕ) → IsPlace (job lot plan L records) place
        → (replay (job lot plan L records) past).replies place ≡ Some (reply_at lot plan L records place) }
    ensures prefixes { (lot : LotParts) → (plan : Plan) → (L : Ledger) → (records : List Transmission) → IsInOrder L
        → (later : List Event) → (before : List Event) → IsLegal (job lot plan L records) (later ++ before)
        → (place : ℕ) → Was (event.Give place) before
        → (replay (job lot plan L records) before).replies place ≡ Some (reply_at lot plan L records place) }
    ensures others { (lot : LotParts) → (plan : Plan) → (L : Ledger) → (records : List Transmission) → IsInOrder L
        → (past : List Event) → (place : ℕ) → (Was (event.Give place) past → ⊥)
        → (replay (job lot plan L records) past).replies place ≡ None }
    ensures finds { (lot : LotParts) → (plan : Plan) → (L : Ledger) → (records : List Transmission) → IsInOrder L
        → (past : List Event) → (place : ℕ) → IsLegal (job lot plan L records) (event.Take place ∷ past)
        → (b : Book) → names (footprint_at L records place) b ≡ true
        → (replay (job lot plan L records) past).books b ≡ book b (ledger_before lot plan L records place) }
    ensures leaves { (lot : LotParts) → (plan : Plan) → (L : Ledger) → (records : List Transmission) → IsInOrder L
        → (past : List Event) → (place : ℕ) → IsLegal (job lot plan L records) (event.Give place ∷ past)
        → (b : Book) → names (footprint_at L records place) b ≡ true
        → (replay (job lot plan L records) (event.Give place ∷ past)).books b
        ≡ book b (ledger_before lot plan L records (suc place)) }
{}

/// Every order of the records in which sharers keep their file order is a complete legal event list, each record taken and
/// given at once. So each finds its books as the fold has them before it, and leaves them as the fold has them after it;
/// all replies are the fold's, and all books are those of the fold's ledger.
pub fn law_of_standing()
    ensures legal { (lot : LotParts) → (plan : Plan) → (L : Ledger) → (records : List Transmission)
        → (order : List ℕ) → HasEachOnce (job lot plan L records) order → KeepsFileOrder (job lot plan L records) order
        → IsLegal (job lot plan L records) (one_by_one order) × IsComplete (job lot plan L records) (one_by_one order) }
    ensures finds { (lot : LotParts) → (plan : Plan) → (L : Ledger) → (records : List Transmission) → IsInOrder L
        → (order : List ℕ) → HasEachOnce (job lot plan L records) order → KeepsFileOrder (job lot plan L records) order
        → (later : List ℕ) → (place : ℕ) → (before : List ℕ) → order ≡ later ++ place ∷ before
        → (b : Book) → names (footprint_at L records place) b ≡ true
        → (replay (job lot plan L records) (one_by_one before)).books b ≡ book b (ledger_before lot plan L records place) }
    ensures leaves { (lot : LotParts) → (plan : Plan) → (L : Ledger) → (records : List Transmission) → IsInOrder L
        → (order : List ℕ) → HasEachOnce (job lot plan L records) order → KeepsFileOrder (job lot plan L records) order
        → (later : List ℕ) → (place : ℕ) → (before : List ℕ) → order ≡ later ++ place ∷ before
        → (b : Book) → names (footprint_at L records place) b ≡ true
        → (replay (job lot plan L records) (one_by_one (place ∷ before))).books b
        ≡ book b (ledger_before lot plan L records (suc place)) }
    ensures books { (lot : LotParts) → (plan : Plan) → (L : Ledger) → (records : List Transmission) → IsInOrder L
        → (order : List ℕ) → HasEachOnce (job lot plan L records) order → KeepsFileOrder (job lot plan L records) order
        → (b : Book) → (replay (job lot plan L records) (one_by_one order)).books b
        ≡ book b (fold_ledger lot plan 1 records L) }
    ensures replies { (lot : LotParts) → (plan : Plan) → (L : Ledger) → (records : List Transmission) → IsInOrder L
        → (order : List ℕ) → HasEachOnce (job lot plan L records) order → KeepsFileOrder (job lot plan L records) order
        → (place : ℕ) → IsPlace (job lot plan L records) place
        → (replay (job lot plan L records) (one_by_one order)).replies place ≡ Some (reply_at lot plan L records place) }
{}

/// For every valid numbering, records taken by number, and in any order within one number, keep the file order of sharers,
/// and so give the fold's replies and the books of the fold's ledger. So do whole waves, each of whose records are all
/// taken and then all given. The waves of the batch's footprints are a valid numbering.
pub fn law_of_waves()
    ensures valid { (lot : LotParts) → (plan : Plan) → (L : Ledger) → (records : List Transmission) → (numbers : List ℕ)
        → AreWaves (footprints_of L records) numbers → IsNumbering (job lot plan L records) (number_in numbers) }
    ensures keeps { (lot : LotParts) → (plan : Plan) → (L : Ledger) → (records : List Transmission)
        → (number : ℕ → ℕ) → (order : List ℕ) → IsNumbering (job lot plan L records) number
        → HasEachOnce (job lot plan L records) order → GoesByNumber number order → KeepsFileOrder (job lot plan L records) order }
    ensures books { (lot : LotParts) → (plan : Plan) → (L : Ledger) → (records : List Transmission) → IsInOrder L
        → (number : ℕ → ℕ) → (order : List ℕ) → IsNumbering (job lot plan L records) number
        → HasEachOnce (job lot plan L records) order → GoesByNumber number order
        → (b : Book) → (replay (job lot plan L records) (one_by_one order)).books b
        ≡ book b (fold_ledger lot plan 1 records L) }
    ensures replies { (lot : LotParts) → (plan : Plan) → (L : Ledger) → (records : List Transmission) → IsInOrder L
        → (number : ℕ → ℕ) → (order : List ℕ) → IsNumbering (job lot plan L records) number
        → HasEachOnce (job lot plan L records) order → GoesByNumber number order
        → (place : ℕ) → IsPlace (job lot plan L records) place
        → (replay (job lot plan L records) (one_by_one order)).replies place ≡ Some (reply_at lot plan L records place) }
    ensures whole { (lot : LotParts) → (plan : Plan) → (L : Ledger) → (records : List Transmission)
        → (number : ℕ → ℕ) → (waves : List Wave) → IsNumbering (job lot plan L records) number
        → GoesInWaves (job lot plan L records) number waves
        → IsLegal (job lot plan L records) (wave_by_wave waves) × IsComplete (job lot plan L records) (wave_by_wave waves) }
    ensures whole_books { (lot : LotParts) → (plan : Plan) → (L : Ledger) → (records : List Transmission) → IsInOrder L
        → (number : ℕ → ℕ) → (waves : List Wave) → IsNumbering (job lot plan L records) number
        → GoesInWaves (job lot plan L records) number waves
        → (b : Book) → (replay (job lot plan L records) (wave_by_wave waves)).books b
        ≡ book b (fold_ledger lot plan 1 records L) }
    ensures whole_replies { (lot : LotParts) → (plan : Plan) → (L : Ledger) → (records : List Transmission) → IsInOrder L
        → (number : ℕ → ℕ) → (waves : List Wave) → IsNumbering (job lot plan L records) number
        → GoesInWaves (job lot plan L records) number waves
        → (place : ℕ) → IsPlace (job lot plan L records) place
        → (replay (job lot plan L records) (wave_by_wave waves)).replies place ≡ Some (reply_at lot plan L records place) }
{}

/// Records that have books of their own, adjudicated in file order on the ledger of these books only, find there at each
/// place what the fold has of these books, and nothing else; they get the fold's replies, and leave the fold's books. So
/// they do on the whole opening ledger (`unparted_..`), where every other book stays. The records of a shard have such
/// books; and the rows that the shards leave under the keys which their records name, put together with the opening's
/// others, are the fold's. A book that no record names is as in the opening.
pub fn law_of_shards()
    ensures ledger { (lot : LotParts) → (plan : Plan) → (L : Ledger) → (records : List Transmission) → IsInOrder L
        → (mine : ℕ → Bool) → (F : FootprintParts) → AreApart L records mine F → (n : ℕ) → n ≤ length records
        → ledger_of lot plan records (places_of mine n) (sub F (cut F L))
        ≡ sub F (cut F (ledger_before lot plan L records (suc n))) }
    ensures replies { (lot : LotParts) → (plan : Plan) → (L : Ledger) → (records : List Transmission) → IsInOrder L
        → (mine : ℕ → Bool) → (F : FootprintParts) → AreApart L records mine F → (n : ℕ) → n ≤ length records
        → replies_of lot plan records (places_of mine n) (sub F (cut F L))
        ≡ map (reply_at lot plan L records) (places_of mine n) }
    ensures books { (lot : LotParts) → (plan : Plan) → (L : Ledger) → (records : List Transmission) → IsInOrder L
        → (mine : ℕ → Bool) → (F : FootprintParts) → AreApart L records mine F → (b : Book) → names F b ≡ true
        → book b (ledger_of lot plan records (places_of mine (length records)) (sub F (cut F L)))
        ≡ book b (fold_ledger lot plan 1 records L) }
    ensures unparted_replies { (lot : LotParts) → (plan : Plan) → (L : Ledger) → (records : List Transmission) → IsInOrder L
        → (mine : ℕ → Bool) → (F : FootprintParts) → AreApart L records mine F → (n : ℕ) → n ≤ length records
        → replies_of lot plan records (places_of mine n) L ≡ map (reply_at lot plan L records) (places_of mine n) }
    ensures unparted_books { (lot : LotParts) → (plan : Plan) → (L : Ledger) → (records : List Transmission) → IsInOrder L
        → (mine : ℕ → Bool) → (F : FootprintParts) → AreApart L records mine F → (b : Book) → names F b ≡ true
        → book b (ledger_of lot plan records (places_of mine (length records)) L)
        ≡ book b (fold_ledger lot plan 1 records L) }
    ensures unparted_others { (lot : LotParts) → (plan : Plan) → (L : Ledger) → (records : List Transmission) → IsInOrder L
        → (mine : ℕ → Bool) → (F : FootprintParts) → AreApart L records mine F → (b : Book) → names F b ≡ false
        → book b (ledger_of lot plan records (places_of mine (length records)) L) ≡ book b L }
    ensures apart { (L : Ledger) → (records : List Transmission) → (shard : ℕ → ℕ)
        → IsGrouping (footprint_at L records) (length records) shard → (k : ℕ)
        → AreApart L records (is_of shard k) (books_of_shard (footprint_at L records) (length records) shard k) }
    ensures joined { (lot : LotParts) → (plan : Plan) → (L : Ledger) → (records : List Transmission) → IsInOrder L
        → (shard : ℕ → ℕ) → IsGrouping (footprint_at L records) (length records) shard
        → (M : Ledger) → AreJoined lot plan L records shard M → M ≡ fold_ledger lot plan 1 records L }
    ensures untouched { (lot : LotParts) → (plan : Plan) → (L : Ledger) → (records : List Transmission) → IsInOrder L
        → (b : Book) → IsUntouched L records b → book b (fold_ledger lot plan 1 records L) ≡ book b L }
{}
