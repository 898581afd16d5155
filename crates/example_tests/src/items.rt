//! Names, and the items of a line.

ghost use Rattle.std.specs.Prelude.{◌≡◌, [], ◌∷◌, Ok, Err, true, false, codes};
ghost use Rattle.attr_text.specs.ItemForms.{IsItem};
ghost use Rattle.attr_text.specs.Items.{invalid_name, reserved};
ghost use Rattle.attr_text.specs.Names.{is_reserved_name, is_valid_name};
ghost use Rattle.attr_text.specs.Words.{AreWords};
ghost use Rattle.attr_text.specs.declared.state.State.TheVariants.{Set, Unset, Value, Unspecified};

/// `a.b-c_1` is a name, and `-a` and `a/b` are none. `builtin_x` is reserved.
pub fn names_told_apart()
    ensures valid { is_valid_name (codes "a.b-c_1") ≡ true }
    ensures minus { is_valid_name (codes "-a") ≡ false }
    ensures slash { is_valid_name (codes "a/b") ≡ false }
    ensures empty { is_valid_name [] ≡ false }
    ensures reserved { is_reserved_name (codes "builtin_x") ≡ true }
{}

/// The words of ` a -b ` are `a` and `-b`.
pub fn words_found()
    ensures { AreWords (codes " a -b ") (codes "a" ∷ codes "-b" ∷ []) }
{}

/// `a` sets, `-a=x` unsets, `a=b=c` gives the value `b=c`, and `!a` makes unspecified.
pub fn items_read()
    ensures set { IsItem (codes "a") (Ok (record { name = codes "a"; state = Set })) }
    ensures unset { IsItem (codes "-a=x") (Ok (record { name = codes "a"; state = Unset })) }
    ensures value { IsItem (codes "a=b=c")
        (Ok (record { name = codes "a"; state = Value (codes "b=c") })) }
    ensures unspecified { IsItem (codes "!a")
        (Ok (record { name = codes "a"; state = Unspecified })) }
{}

/// `--a` and `=x` are refused for their names, `-a` and the empty one, and `builtin_x` for a reserved one.
pub fn items_refused()
    ensures minus { IsItem (codes "--a") (Err (invalid_name (codes "-a"))) }
    ensures empty { IsItem (codes "=x") (Err (invalid_name [])) }
    ensures reserved { IsItem (codes "builtin_x") (Err (reserved (codes "builtin_x"))) }
{}
