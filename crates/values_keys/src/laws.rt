//! Laws of the definitions. Each function has an empty body: its clauses are the law.
ghost use Rattle.std.specs.Prelude.{◌≡◌, ℕ, List, Result, Ok, Err, Some, None, MatchOption, codes};
ghost use Rattle.http_uri.specs.Uri.{Spells, SpellsNone};
ghost use Rattle.url_key.specs.declared.fault.KeyFault.{KeyFault};
ghost use Rattle.url_key.specs.declared.fault.KeyFault.TheVariants.{NotVisibleAscii, Fragment};
ghost use Rattle.url_key.specs.declared.fault.KeyFault.TheVariants.{NotUri, NotHttp, UserInfo};
ghost use Rattle.url_key.specs.declared.fault.KeyFault.TheVariants.{NoHost, BadPort};
ghost use Rattle.url_key.specs.Key.{HasKey, early_fault};
ghost use Rattle.values_keys.specs.UriIn.{uri_in};
ghost use Rattle.values_keys.specs.KeyOf.{outcome_of, key_of, GivesKeys};

/// For a text without an early fault, `uri_in` gives the URI that the text spells, and none exactly
/// if it spells none.
pub fn uri_in_decides_the_grammar()
    ensures { (text : List ℕ) → early_fault text ≡ None →
        MatchOption (uri_in text) (SpellsNone text) (Spells text) }
{}

/// Each text has one outcome, a key or its first fault, and it is the one that `outcome_of` gives.
pub fn each_text_has_one_outcome()
    ensures found { (text : List ℕ) → HasKey text (outcome_of text) }
    ensures only { (text : List ℕ) (outcome : Result (List ℕ) KeyFault) → HasKey text outcome →
        outcome ≡ outcome_of text }
{}

/// `key_of` gives the key that each text has, and none if it has none.
pub fn key_of_gives_keys()
    ensures { GivesKeys key_of }
{}

/// Worked examples: the functions compute on literal texts.
pub fn worked_rows()
    ensures letters { key_of (codes "HTTP://O") ≡ Some (codes "http://o/") }
    ensures port_80 { key_of (codes "http://o:080/") ≡ Some (codes "http://o/") }
    ensures port_81 { key_of (codes "http://o:00081/?q") ≡ Some (codes "http://o:81/?q") }
    ensures address { key_of (codes "http://[FE80::1]:81") ≡ Some (codes "http://[fe80::1]:81/") }
    ensures escape { key_of (codes "http://o/%41") ≡ Some (codes "http://o/%41") }
    ensures space { outcome_of (codes "http://o/a b") ≡ Err NotVisibleAscii }
    ensures fragment { outcome_of (codes "http://o/a#b") ≡ Err Fragment }
    ensures nothing { outcome_of (codes "") ≡ Err NotUri }
    ensures no_authority { outcome_of (codes "http://") ≡ Err NotUri }
    ensures bad_path { outcome_of (codes "http://o/<") ≡ Err NotUri }
    ensures origin_form { outcome_of (codes "/a") ≡ Err NotHttp }
    ensures asterisk_form { outcome_of (codes "*") ≡ Err NotHttp }
    ensures authority_form { outcome_of (codes "o:80") ≡ Err NotHttp }
    ensures other_scheme { outcome_of (codes "https://o/") ≡ Err NotHttp }
    ensures userinfo { outcome_of (codes "http://u@o/") ≡ Err UserInfo }
    ensures no_host { outcome_of (codes "http://:80/") ≡ Err NoHost }
    ensures bad_port { outcome_of (codes "http://o:0/") ≡ Err BadPort }
    ensures no_key { key_of (codes "/a") ≡ None }
{}
