//! What the definition of the words says of words without options, and which number the most slots are.
ghost use Rattle.std.specs.Prelude.{◌≡◌, ◌∷◌, [], List, Some, false, codes};
ghost use Rattle.std.specs.List.{AllByRecursion};
ghost use Rattle.do_disk.specs.Slots.{most_slots};
ghost use Rattle.do_disk.specs.declared.depot.TheConstants.{MOST_SLOTS};
ghost use Rattle.command_words.specs.Words.{Text, is_flag, told_places};
ghost use Rattle.command_words.specs.Asked.{asked, asked_once, places_of, serves, checks, dumps, gens_if, seed_in, count_in};

/// Words that have no hyphen first, or nothing behind it, go to the places of the command, one each.
pub fn words_without_options()
    ensures places { (command : Text) (words : List Text) → AllByRecursion (λ word. is_flag word ≡ false) words
        → asked (command ∷ words) ≡ asked_once command (told_places (places_of command) words) }
    ensures serve { (script folder : Text) → is_flag script ≡ false → is_flag folder ≡ false
        → asked (codes "serve" ∷ script ∷ folder ∷ []) ≡ serves script folder 16 4 1073741824 }
    ensures check { (script : Text) → is_flag script ≡ false → asked (codes "check" ∷ script ∷ []) ≡ checks script }
    ensures dump { (folder : Text) → is_flag folder ≡ false → asked (codes "dump" ∷ folder ∷ []) ≡ dumps folder 16 }
    ensures made { (seed count folder : Text) → is_flag seed ≡ false → is_flag count ≡ false → is_flag folder ≡ false
        → asked (codes "gen" ∷ seed ∷ count ∷ folder ∷ []) ≡ gens_if (seed_in (Some seed)) (count_in (Some count)) (Some folder) }
{}

/// How many slots a folder has at most, by `do_disk`'s constant: what `--slots` takes, and what all above it count by.
pub fn most_slots_are()
    ensures { MOST_SLOTS ≡ most_slots }
{}
