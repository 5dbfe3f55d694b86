//! Serving requests and calls under the name of a zone's table.

ghost use Rattle.std.specs.Prelude.{◌≡◌, IsSome, IsSomeAnd, None};
ghost use Rattle.zone_threads.specs.{Calls, AnswersRead, HasCpu, HasNoCpu};
ghost use Rattle.host_memory.specs.{OnKnown};
ghost use Rattle.tempolemon_threads.specs.Serving.{Forks, IsFitForHome, ServesHomeRequest, home_frames_after};
ghost use Rattle.tempolemon_threads.specs.declared.requests.Request.TheVariants.{End, Enter, Leave, Start, Text};

use crate::home_pointer::HomePointer;
use crate::requests::{Forked, Request, RequestAnswer};
use cpu_part::BootName;
use host_memory::box_parts::BoxParts;
use mem_system::Boot;
use std::alloc::Global;
use zone_threads::calls::{Call, CallAnswer, ReadAnswer, ReadCall};
use zone_threads::home::{Home, NotLeft};
use zone_threads::texts::TextCall;

/// Serves a request. A start needs a pointer to nothing, and all else one to a home.
pub fn serve<N: BootName>(
    pointer: HomePointer<N>,
    request: Request,
) -> (HomePointer<N>, RequestAnswer)
    requires fit { IsFitForHome pointer.home request }
    requires frames { home_frames_after pointer.frames request ≡ N.table }
    ensures named { result.0.frames ≡ N.table }
    ensures serves { ServesHomeRequest N.table pointer.home request result.0.home result.1 }
{
    match request {
        Request::Start { alloc, boot } => start(pointer, alloc, boot),
        Request::Enter { number } => enter(pointer, number),
        Request::Leave { alloc } => leave(pointer, alloc),
        Request::Text { alloc, asked } => text(pointer, alloc, asked),
        Request::End { alloc } => end(pointer, alloc),
    }
}

/// Serves a call of the home's CPU.
#[inline(always)]
pub fn call_pointer<N: BootName>(
    pointer: HomePointer<N>,
    call: &Call<'_>,
) -> (HomePointer<N>, CallAnswer)
    requires cpu { IsSomeAnd pointer.home HasCpu }
    requires named { pointer.frames ≡ N.table }
    ensures named { result.0.frames ≡ N.table }
    ensures serves { OnKnown (λ from to. Calls N.table call.now from to result.1)
        pointer.home result.0.home }
{
    let mut home = pointer.into_box_parts().into_box();
    let answer = home.call(call);
    (HomePointer::of(BoxParts::of(home)), answer)
}

/// Serves a read of a file for the home's CPU.
pub fn serve_read<N: BootName>(
    pointer: HomePointer<N>,
    asked: &ReadCall<'_>,
) -> (HomePointer<N>, ReadAnswer)
    requires cpu { IsSomeAnd pointer.home HasCpu }
    requires named { pointer.frames ≡ N.table }
    ensures named { result.0.frames ≡ N.table }
    ensures serves { OnKnown (λ from to. AnswersRead N.table asked.now from to result.1)
        pointer.home result.0.home }
{
    let mut home = pointer.into_box_parts().into_box();
    let answer = home.read(asked);
    (HomePointer::of(BoxParts::of(home)), answer)
}

/// A second pointer, to another home of the same zone, without a CPU; it leads nowhere if memory ran out.
pub fn fork<N: BootName>(
    pointer: HomePointer<N>,
    alloc: Global,
) -> (HomePointer<N>, HomePointer<N>, Forked)
    requires some { IsSome pointer.home }
    requires named { pointer.frames ≡ N.table }
    ensures named { result.0.frames ≡ N.table }
    ensures second { result.1.frames ≡ N.table }
    ensures forks { Forks pointer.home result.0.home result.1.home result.2 }
{
    let home = pointer.into_box_parts().into_box();
    let forked = home.fork();
    let pointer = HomePointer::of(BoxParts::of(home));
    let Ok(forked) = forked else {
        return (pointer, HomePointer::none(alloc), Forked::NoMemory);
    };
    match Box::new(alloc, forked) {
        Ok(forked) => (pointer, HomePointer::of(BoxParts::of(forked)), Forked::Done),
        Err(_) => (pointer, HomePointer::none(alloc), Forked::NoMemory),
    }
}

fn start<N: BootName>(
    pointer: HomePointer<N>,
    alloc: Global,
    boot: Boot,
) -> (HomePointer<N>, RequestAnswer)
    requires none { pointer.home ≡ None }
    requires frames { boot.table ≡ N.table }
    ensures named { result.0.frames ≡ N.table }
    ensures serves { ServesHomeRequest N.table pointer.home (Start alloc boot) result.0.home result.1 }
{
    pointer.forget();
    let Ok(home) = Home::<N>::start(alloc, boot) else {
        return (HomePointer::none(alloc), RequestAnswer::NoMemory);
    };
    match Box::new(alloc, home) {
        Ok(home) => (HomePointer::of(BoxParts::of(home)), RequestAnswer::Started),
        Err(_) => (HomePointer::none(alloc), RequestAnswer::NoMemory),
    }
}

fn enter<N: BootName>(pointer: HomePointer<N>, number: u32) -> (HomePointer<N>, RequestAnswer)
    requires some { IsSome pointer.home }
    requires named { pointer.frames ≡ N.table }
    ensures named { result.0.frames ≡ N.table }
    ensures serves { ServesHomeRequest N.table pointer.home (Enter number) result.0.home result.1 }
{
    let mut home = pointer.into_box_parts().into_box();
    match home.enter(number) {
        Ok(()) => (HomePointer::of(BoxParts::of(home)), RequestAnswer::Entered),
        Err(reason) => (
            HomePointer::of(BoxParts::of(home)),
            RequestAnswer::NotEntered(reason),
        ),
    }
}

fn leave<N: BootName>(pointer: HomePointer<N>, alloc: Global) -> (HomePointer<N>, RequestAnswer)
    requires some { IsSome pointer.home }
    requires named { pointer.frames ≡ N.table }
    ensures named { result.0.frames ≡ N.table }
    ensures serves { ServesHomeRequest N.table pointer.home (Leave alloc) result.0.home result.1 }
{
    let mut home = pointer.into_box_parts().into_box();
    let left = home.leave();
    if let Err(NotLeft::Busy) = left {
        return (
            HomePointer::of(BoxParts::of(home)),
            RequestAnswer::NotLeft(NotLeft::Busy),
        );
    }
    let _home = Box::into_inner(home);
    match left {
        Ok(returned) => (HomePointer::none(alloc), RequestAnswer::Left(returned)),
        Err(reason) => (HomePointer::none(alloc), RequestAnswer::NotLeft(reason)),
    }
}

fn text<N: BootName>(
    pointer: HomePointer<N>,
    alloc: Global,
    asked: TextCall,
) -> (HomePointer<N>, RequestAnswer)
    requires cpu { IsSomeAnd pointer.home HasCpu }
    requires named { pointer.frames ≡ N.table }
    ensures named { result.0.frames ≡ N.table }
    ensures serves { ServesHomeRequest N.table pointer.home (Text alloc asked) result.0.home result.1 }
{
    let mut home = pointer.into_box_parts().into_box();
    let text = home.text(alloc, asked);
    let pointer = HomePointer::of(BoxParts::of(home));
    let Some(text) = text else {
        return (pointer, RequestAnswer::Busy);
    };
    (pointer, RequestAnswer::Text(text))
}

#[tactic(auto, using(crate::proofs::Crossing::has_ended))]
fn end<N: BootName>(pointer: HomePointer<N>, alloc: Global) -> (HomePointer<N>, RequestAnswer)
    requires some { IsSomeAnd pointer.home HasNoCpu }
    requires named { pointer.frames ≡ N.table }
    ensures named { result.0.frames ≡ N.table }
    ensures serves { ServesHomeRequest N.table pointer.home (End alloc) result.0.home result.1 }
{
    let home = Box::into_inner(pointer.into_box_parts().into_box());
    match home.into_zone() {
        Ok(zone) => match zone.end() {
            Some(end) => (HomePointer::none(alloc), RequestAnswer::Ended(end.ended)),
            None => (HomePointer::none(alloc), RequestAnswer::Lost),
        },
        Err(home) => match Box::new(alloc, home) {
            Ok(home) => (HomePointer::of(BoxParts::of(home)), RequestAnswer::Out),
            Err(_) => (HomePointer::none(alloc), RequestAnswer::NoMemory),
        },
    }
}
