//! Lists of numbers: what is where, and what a share keeps.
use slots::{Share, Slots, Update};
use std::alloc::Global;
use std::process::Abort;
use values::Mem;

/// The numbers below a bound, in order.
fn numbers(rt: &impl Abort, alloc: Global, bound: usize) -> Slots<usize> {
    let mut list = Slots::new(alloc);
    for number in 0..bound {
        list.push(number).expect(rt, "there is memory");
    }
    list
}

fn number_at(list: &Slots<usize>, place: usize) -> Option<usize> {
    list.get(place).copied()
}

/// Whether the list has the numbers below a bound in order, and nothing at the bound.
fn has_all_below(list: &Slots<usize>, bound: usize) -> bool {
    for place in 0..bound {
        if number_at(list, place) != Some(place) {
            return false;
        }
    }
    number_at(list, bound).is_none()
}

/// Whether the list has a number in each place below a bound.
fn has_in_all(list: &Slots<usize>, bound: usize, number: usize) -> bool {
    for place in 0..bound {
        if number_at(list, place) != Some(number) {
            return false;
        }
    }
    true
}

/// Puts a number in each place of a list.
fn fill(rt: &impl Abort, list: &mut Slots<usize>, number: usize) {
    for place in 0..list.len() {
        if place < list.len() {
            list.set(place, number).expect(rt, "there is memory");
        }
    }
}

fn share(rt: &impl Abort, list: &Slots<usize>) -> Slots<usize> {
    list.share().expect(rt, "there is memory")
}

#[test]
fn a_list_of_four_levels_has_each_item_in_its_place(rt: HostRuntime) {
    let list = numbers(&rt, rt.alloc(), 4200);
    assert!(rt; list.len() == 4200 && has_all_below(&list, 4200));
}

/// Whether a list has its last number and one in the middle, and has nothing behind it.
fn has_grown(list: &Slots<usize>, last: usize) -> bool {
    number_at(list, last) == Some(last)
        && number_at(list, last / 2) == Some(last / 2)
        && number_at(list, last.saturating_add(1)).is_none()
}

/// Whether a list has each number once it is added, keeps one in the middle, and has nothing behind
/// it.
fn grows(rt: &impl Abort, alloc: Global, bound: usize) -> bool {
    let mut list = Slots::new(alloc);
    for number in 0..bound {
        list.push(number).expect(rt, "there is memory");
        if !has_grown(&list, number) {
            return false;
        }
    }
    true
}

#[test]
fn a_list_grows_over_full_nodes(rt: HostRuntime) {
    assert!(rt; Slots::<usize>::new(rt.alloc()).len() == 0);
    assert!(rt; grows(&rt, rt.alloc(), 300));
}

/// Puts 7 in each place of a list of 300 numbers, and 8 behind them: whether it then has these
/// alone.
fn is_changed(rt: &impl Abort, list: &mut Slots<usize>) -> bool {
    fill(rt, list, 7);
    list.push(8).expect(rt, "there is memory");
    list.len() == 301 && has_in_all(list, 300, 7) && number_at(list, 300) == Some(8)
}

/// Whether a list has changed so, how long its share then is, and whether that has all numbers.
fn changed_beside_share(rt: &impl Abort, alloc: Global) -> (bool, usize, bool) {
    let mut list = numbers(rt, alloc, 300);
    let before = share(rt, &list);
    let is_changed = is_changed(rt, &mut list);
    (is_changed, before.len(), has_all_below(&before, 300))
}

#[test]
fn a_share_keeps_what_was_there(rt: HostRuntime) {
    assert!(rt; changed_beside_share(&rt, rt.alloc()) == (true, 300, true));
}

/// The last numbers of a list, of its share, and of a share of that one, once both shares were
/// filled.
type Last = (Option<usize>, Option<usize>, Option<usize>);

fn filled_shares(rt: &impl Abort, alloc: Global) -> Last {
    let list = numbers(rt, alloc, 40);
    let mut first = share(rt, &list);
    let mut second = share(rt, &first);
    fill(rt, &mut first, 1);
    fill(rt, &mut second, 2);
    (
        number_at(&list, 39),
        number_at(&first, 39),
        number_at(&second, 39),
    )
}

#[test]
fn a_share_changes_by_itself(rt: HostRuntime) {
    assert!(rt; filled_shares(&rt, rt.alloc()) == (Some(39), Some(1), Some(2)));
    assert!(rt; 5usize.share().ok() == Some(5));
}

fn is_added(list: &mut Slots<usize>, number: usize) -> bool {
    list.push(number).is_ok()
}

/// Whether a list takes the number that it is long, where a growth that is refused changes nothing
/// and is tried again.
fn is_added_at_last(list: &mut Slots<usize>, number: usize) -> bool {
    is_added(list, number) || (list.len() == number && is_added(list, number))
}

/// Whether a list takes each number so, and has each in the end.
fn grown_after_refusals(alloc: Global, bound: usize) -> bool {
    let mut list = Slots::new(alloc);
    let mut has_grown = true;
    for number in 0..bound {
        has_grown = is_added_at_last(&mut list, number) && has_grown;
    }
    has_grown && has_all_below(&list, bound)
}

#[test]
fn a_refused_growth_changes_nothing(rt: HostRuntime) {
    assert!(rt; grown_after_refusals(rt.alloc(), 40));
}

/// A number that another is put in the place of.
#[derive(Drop)]
struct Mark {
    number: usize,
}

impl Share for Mark {
    fn share(&self) -> Mem<Mark> {
        Ok(Mark {
            number: self.number,
        })
    }
}

impl Update<usize> for Mark {
    ghost can_update = { λ mark number. Unit {0} };

    ghost updated = { λ mark number. record { number = number } };

    fn update(&mut self, _alloc: Global, number: usize) -> Mem<()> {
        self.number = number;
        Ok(())
    }
}

fn marks(rt: &impl Abort, alloc: Global, bound: usize) -> Slots<Mark> {
    let mut list = Slots::new(alloc);
    for number in 0..bound {
        list.push(Mark { number }).expect(rt, "there is memory");
    }
    list
}

fn is_mark(list: &Slots<Mark>, place: usize, number: usize) -> bool {
    match list.get(place) {
        None => false,
        Some(mark) => mark.number == number,
    }
}

fn update_at(rt: &impl Abort, list: &mut Slots<Mark>, place: usize, number: usize) {
    assert!(rt; place < list.len());
    list.update(place, number).expect(rt, "there is memory");
}

/// Whether a list has these marks at 16, 17 and 299.
fn has_marks(list: &Slots<Mark>, marks: (usize, usize, usize)) -> bool {
    is_mark(list, 16, marks.0) && is_mark(list, 17, marks.1) && is_mark(list, 299, marks.2)
}

/// Whether a share of a list of marks, of which one was updated, and the list after two updates
/// more have these marks.
fn are_updated(
    rt: &impl Abort,
    alloc: Global,
    was: (usize, usize, usize),
    is: (usize, usize, usize),
) -> (bool, bool) {
    let mut list = marks(rt, alloc, 300);
    update_at(rt, &mut list, 17, 1000);
    let before = list.share().expect(rt, "there is memory");
    update_at(rt, &mut list, 17, 2000);
    update_at(rt, &mut list, 299, 3000);
    (has_marks(&before, was), has_marks(&list, is))
}

/// Whether each of 40 marks is its place and so much more.
fn are_marked(list: &Slots<Mark>, more: usize) -> bool {
    for place in 0..40usize {
        if !is_mark(list, place, place.saturating_add(more)) {
            return false;
        }
    }
    true
}

/// Whether a list, of which each item was updated, and a share from before have these marks.
fn are_all_updated(rt: &impl Abort, alloc: Global) -> (bool, bool) {
    let mut list = marks(rt, alloc, 40);
    let before = list.share().expect(rt, "there is memory");
    for place in 0..40usize {
        update_at(rt, &mut list, place, place.saturating_add(1000));
    }
    (are_marked(&before, 0), are_marked(&list, 1000))
}

#[test]
fn each_item_is_changed_and_a_share_keeps_all(rt: HostRuntime) {
    let one_is_changed = are_updated(&rt, rt.alloc(), (16, 1000, 299), (16, 2000, 3000));
    assert!(rt; one_is_changed == (true, true));
    assert!(rt; are_all_updated(&rt, rt.alloc()) == (true, true));
}
