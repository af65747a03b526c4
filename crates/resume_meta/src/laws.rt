ghost use Rattle.std.specs.Prelude.{◌≡◌};
ghost use Rattle.resume_meta.specs.Meta.{IsMeta, meta_text};
ghost use Rattle.resume_meta.specs.declared.meta.Meta.{Meta};

/// A law: no text has two metas.
pub fn metas_have_texts_of_their_own()
    ensures { (meta other : Meta) → IsMeta meta → IsMeta other
        → meta_text meta ≡ meta_text other → meta ≡ other }
{}
