ghost use Rattle.std.specs.Prelude.{◌≡◌, ◌≤◌, false, map, slice_get};
ghost use Rattle.std.specs.List.{find};
ghost use Rattle.mg_words.specs.Forms.{fitting, forms, slots};
ghost use Rattle.mg_words.specs.Asking.{takes};
ghost use Rattle.mg_words.specs.Wrong.{IsWrong};

use crate::fault::WordFault;
use crate::form::Form;
use crate::slot::Slot;

/// How many of the words, from the first on, fit what stands there in a line of this form.
pub fn fitting(form: Form, words: &[&str]) -> usize
    ensures { result ≡ fitting form (map (λ word. word.now) words.now) }
{
    let slots = form.slots();
    for (place, slot) in slots.iter().enumerate() {
        let Some(word) = words.get(place) else {
            return place;
        };
        if !slot.fits(word) {
            return place;
        }
    }
    slots.len()
}

/// Whether these words are a line of this form.
pub fn takes(form: Form, words: &[&str]) -> bool
    ensures { result ≡ takes form (map (λ word. word.now) words.now) }
{
    let places = form.slots().len();
    fitting(form, words) == places && (words.len() == places || form.may_go_on())
}

/// The form that these words have.
pub fn form_of(words: &[&str]) -> Option<Form>
    ensures { result ≡ find (λ form. takes form (map (λ word. word.now) words.now)) forms }
{
    Form::ALL.iter().copied().find(|form| takes(*form, words))
}

/// The form that has room for the most words, from the first on.
fn furthest(words: &[&str]) -> Form
    ensures { (other : Form) → fitting other (map (λ word. word.now) words.now) ≤ fitting result (map (λ word. word.now) words.now) }
{
    let mut best = Form::Create;
    let mut most = fitting(best, words);
    for form in Form::ALL {
        let many = fitting(form, words);
        if most < many {
            best = form;
            most = many;
        }
    }
    best
}

/// What stands at this place of a line of this form.
fn slot_at(form: Form, place: usize) -> Option<Slot>
    ensures { result ≡ slice_get (slots form) place }
{
    form.slots().get(place).copied()
}

/// The first word that no form has room for, where the words have no form.
pub fn first_bad(words: &[&str]) -> WordFault
    requires { (form : Form) → takes form (map (λ word. word.now) words.now) ≡ false }
    ensures { IsWrong (map (λ word. word.now) words.now) result }
{
    let form = furthest(words);
    let place = fitting(form, words);
    let wanted = slot_at(form, place);
    WordFault::Bad { place, wanted }
}
